// The records of a tree.
ghost use Rattle.std.specs.Prelude.{◌≡◌};
ghost use Rattle.shape.specs.Shapes.{piece};
ghost use Rattle.shape.specs.Meaning.{within};
ghost use Rattle.tree.specs.Memory.{link_of};

use crate::pool::Pool;
use routing::ends::Ends;

// A branch of a node: its interval, what is below it, and the next branch of the node. Links are 32 bits wide, and `NONE` leads nowhere,
// so that a record takes the caller 16 bytes. The ends stand in it as `low` and `high`: it is public, four u32 in memory that the caller
// lends.
#[derive(Clone, Copy)]
pub struct Branch {
    pub low: u32,
    pub high: u32,
    pub below: u32,
    pub next: u32,
}

impl Branch {
    pub(crate) fn ends(self) -> Ends
        ensures { result ≡ record { low = self.low; high = self.high } }
    {
        Ends {
            low: self.low,
            high: self.high,
        }
    }

    pub(crate) fn is_within(self, ends: Ends) -> bool
        ensures { result ≡ within ends (piece self.low self.high) }
    {
        ends.low <= self.low && self.high <= ends.high
    }
}

// A mark of a cell: the number of a rule, and the next mark of the cell.
// `next` is a plain link, `NONE` at the last: records lie in memory that the caller lends.
#[derive(Clone, Copy)]
pub struct Mark {
    pub rule: u16,
    pub next: u32,
}

// The link to nothing. Within the crate a link is passed as it lies in the lent records, from one to another; `next` and `follow` make it
// an option where it is tested.
pub const NONE: u32 = 0xffff_ffff;

impl Mark {
    // The link to the next mark, if there is one.
    pub fn next(self) -> Option<u32>
        ensures { result ≡ link_of self.next }
    {
        leads(self.next)
    }
}

// Where a link leads, if anywhere.
pub(crate) fn leads(link: u32) -> Option<u32>
    ensures { result ≡ link_of link }
{
    (link != NONE).then_some(link)
}

// The branches and the marks of a tree, in two slices that the caller lends.
#[derive(Drop)]
pub struct Store<'a> {
    pub(crate) branches: Pool<'a, Branch>,
    pub(crate) marks: Pool<'a, Mark>,
}
