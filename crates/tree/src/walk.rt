// A walk over the cells in ascending order of their low corners, below the branches that lie within given intervals.
ghost use Rattle.std.specs.Prelude.{◌≡◌, ◌-◌, ◌<◌, ◌≤◌, List, [], ◌∷◌, length, drop, replicate};
ghost use Rattle.shape.specs.Meaning.{Cell as AnyCell, cells};
ghost use Rattle.tree.specs.Links.{Records, shape};
ghost use Rattle.tree.specs.Reads.{Stood, SomeTree};
ghost use Rattle.tree.specs.Tours.{Touring, Reached};

use crate::records::{NONE, Store};
use routing::ends::Ends;
use routing::rule::Message;

// Where a walk stands: whether there is a cell, its low corner as a message, its first mark, and the branches above it.
// Its links are numbers as the records have them, and `NONE` where there is none.
// `found` is a flag beside the arrays and never an option around them: so it is in each answer of a walk.
#[derive(Clone, Copy)]
pub struct Walk {
    pub found: bool,
    pub corner: Message,
    pub marks: u32,
    path: [u32; 8],
}

// `few` and `some` stand in three contracts: a type for one to eight intervals would have one maker and be taken apart at once.
impl Store<'_> {
    // From the node or cell at `first`, below `depth` branches of the path, on to the next cell.
    fn settle(
        &self,
        within: &[Ends],
        from: [u32; 8],
        lows: Message,
        depth: usize,
        first: u32,
    ) -> Walk
        requires walk { (cs : List AnyCell) × Touring self.now within.now from lows depth first cs }
        requires few { length within.now ≤ 8 }
        requires some { 0 < length within.now }
        requires depth { depth ≤ length within.now }
        requires clear { drop (length within.now) lows ≡ replicate (8 - length within.now) 0 }
        ensures { (cs : List AnyCell) → Touring self.now within.now from lows depth first cs → Reached self.now within.now result cs }
    {
        let mut path = from;
        let mut corner = lows;
        // A loop over the intervals would be no plainer: the walk goes down and up again.
        let mut k = depth;
        let mut at = first;
        while k < within.len() {
            match self.branches.follow(at) {
                Some(b) if b.is_within(within[k]) => {
                    path[k] = at;
                    corner[k] = b.low;
                    k += 1;
                    at = b.below;
                }
                Some(b) => at = b.next,
                None if k == 0 => {
                    return Walk {
                        found: false,
                        corner: [0; 8],
                        marks: NONE,
                        path,
                    };
                }
                None => {
                    k -= 1;
                    at = self.branches.get(path[k]).next;
                }
            }
        }
        Walk {
            found: true,
            corner,
            marks: at,
            path,
        }
    }

    // The first cell of the tree at `first`.
    pub(crate) fn first_cell(&self, within: &[Ends], first: u32) -> Walk
        requires tree { SomeTree self.now (length within.now) first }
        requires few { length within.now ≤ 8 }
        requires some { 0 < length within.now }
        ensures { (t : Records) → Stood self.now (length within.now) first t → Reached self.now within.now result (cells within.now [] (shape t)) }
    {
        self.settle(within, [NONE; 8], [0; 8], 0, first)
    }

    // The cell after the one where the walk stands.
    pub(crate) fn next_cell(&self, within: &[Ends], walk: Walk) -> Walk
        requires walk { (c : AnyCell) × ((cs : List AnyCell) × Reached self.now within.now walk (c ∷ cs)) }
        requires few { length within.now ≤ 8 }
        requires some { 0 < length within.now }
        ensures { (c : AnyCell) (cs : List AnyCell) → Reached self.now within.now walk (c ∷ cs) → Reached self.now within.now result cs }
    {
        let path = walk.path;
        let last = within.len() - 1;
        let at = self.branches.get(path[last]).next;
        self.settle(within, path, walk.corner, last, at)
    }
}
