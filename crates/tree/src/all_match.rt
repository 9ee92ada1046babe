// The all-match tree of some rules.
ghost use Rattle.std.specs.Prelude.{◌≡◌, ◌≤◌, length, take};
ghost use Rattle.tree.specs.Meant.{SomeRules};

use crate::pool::Pool;
use crate::records::{Branch, Mark, NONE, Store, leads};
use crate::space::Space;
use crate::walk::Walk;
use routing::ends::Ends;
use routing::rule::Message;
use routing::widths::Widths;
use thiserror::Error;

// Never more are used, however much memory there is.
const MOST_BRANCHES: usize = 65536;

const MOST_MARKS: usize = 1048576;

// Its records, the link to its root (a number, as the records have their links), and how many fields its rules have.
#[derive(Drop)]
pub struct Tree<'a> {
    pub(crate) store: Store<'a>,
    pub(crate) root: u32,
    pub(crate) fields: usize,
    ghost rules: { SomeRules store root fields },
}

// What a rule more would need, and there is too little of.
#[derive(Clone, Copy, Debug, PartialEq, Eq, Hash, Error)]
pub enum Lack {
    #[error("branches")]
    Branches,
    #[error("marks")]
    Marks,
}

// The intervals of the first fields.
fn first_of(ends: &[Ends; 8], fields: usize) -> &[Ends]
    requires { fields ≤ 8 }
    ensures first { result.now ≡ take fields ends.now }
    ensures length { length result.now ≡ fields }
{
    &ends[0..fields]
}

impl<'a> Tree<'a> {
    ghost use Rattle.std.specs.Prelude.{[]};
    ghost use Rattle.routing.specs.Fields.{widths_of};
    ghost use Rattle.shape.specs.Meaning.{Proper};
    ghost use Rattle.tree.specs.Means.{Means, room_of};
    ghost use Rattle.tree.specs.Calls.{Next, Uses, NeedsWith, Appends, LooksUp, Marked, Reads, Begins, StandsAt, GoesOn};

    // A tree of no rules, in any memory, whatever it holds.
    pub fn new(branches: &'a mut [Branch], marks: &'a mut [Mark], widths: Widths) -> Tree<'a>
        ensures means { Means result [] }
        ensures fields { result.fields ≡ length (widths_of widths) }
        ensures memory { (result.store.branches.records.now ≡ branches.old) × (result.store.marks.records.now ≡ marks.old) }
    {
        Tree {
            store: Store {
                branches: Pool {
                    records: branches,
                    taken: 0,
                },
                marks: Pool {
                    records: marks,
                    taken: 0,
                },
            },
            root: NONE,
            fields: widths.fields(),
        }
    }

    // The branches and the marks that the tree may use.
    pub fn room(&self) -> Space
        ensures { result ≡ room_of self.now }
    {
        Space {
            branches: self.store.branches.records.len().min(MOST_BRANCHES) as u64,
            marks: self.store.marks.records.len().min(MOST_MARKS) as u64,
        }
    }

    // The branches and the marks that are taken: exactly those that the rules need.
    pub fn used(&self) -> Space
        ensures { Uses self.now result }
    {
        Space {
            branches: self.store.branches.taken as u64,
            marks: self.store.marks.taken as u64,
        }
    }

    // The space that the rules need with one more.
    pub fn space_with(&self, ends: &[Ends; 8]) -> Space
        requires { Proper self.now.fields ends.now }
        ensures { NeedsWith self.now ends.now result }
    {
        self.count_with(ends)
    }

    // Appends a rule of these intervals under the next number, if the rules with it need no more branches and marks than the tree may
    // use. Else nothing changes.
    pub fn append(&mut self, ends: &[Ends; 8], number: u16) -> Result<(), Lack>
        requires means { Next self.old number }
        requires proper { Proper self.old.fields ends.now }
        ensures { Appends self.old self.new ends.now number result }
    {
        self.grow(ends, number)
    }

    // The link to the marks of the rules that match a message, in order; none where no rule does.
    #[tactic(auto, using(crate::proofs::Calls::tree_stands, crate::proofs::Calls::tree_few, crate::proofs::Calls::looks_marks, crate::proofs::Calls::looks_some))]
    pub fn look_up(&self, message: Message) -> Option<u32>
        ensures { LooksUp self.now message result }
    {
        let at = self.store.cell(self.fields, self.root, message);
        leads(at)
    }

    // The mark at a link.
    pub fn mark(&self, at: u32) -> Mark
        requires { Marked self.now at }
        ensures { Reads self.now at result }
    {
        self.mark_at(at)
    }

    // The first cell below branches within given intervals.
    #[tactic(auto, using(crate::proofs::Calls::tree_stands, crate::proofs::Calls::tree_few, crate::proofs::Calls::tree_some, crate::proofs::Calls::begins_first, crate::proofs::Calls::begins_right, crate::proofs::Calls::begins_found))]
    pub fn first_cell(&self, within: &[Ends; 8]) -> Walk
        ensures { Begins self.now within.now result }
    {
        self.store
            .first_cell(first_of(within, self.fields), self.root)
    }

    // The cell after the one where a walk stands.
    #[tactic(auto, using(crate::proofs::Calls::goes_found))]
    pub fn next_cell(&self, within: &[Ends; 8], walk: Walk) -> Walk
        requires { StandsAt self.now within.now walk }
        ensures { GoesOn self.now within.now walk result }
    {
        self.store.next_cell(first_of(within, self.fields), walk)
    }
}

// The work behind three of the calls, whose proofs are by hand.
impl Tree<'_> {
    ghost use Rattle.shape.specs.Meaning.{Proper};
    ghost use Rattle.tree.specs.Calls.{Next, NeedsWith, Appends, Marked, Reads};

    fn count_with(&self, ends: &[Ends; 8]) -> Space
        requires { Proper self.now.fields ends.now }
        ensures { NeedsWith self.now ends.now result }
    {
        let fields = self.fields;
        self.store
            .space_with(fields, self.root, first_of(ends, fields))
    }

    fn grow(&mut self, ends: &[Ends; 8], number: u16) -> Result<(), Lack>
        requires means { Next self.old number }
        requires proper { Proper self.old.fields ends.now }
        ensures { Appends self.old self.new ends.now number result }
    {
        let need = self.space_with(ends);
        let room = self.room();
        if need.branches > room.branches {
            return Err(Lack::Branches);
        }
        if need.marks > room.marks {
            return Err(Lack::Marks);
        }
        let fields = self.fields;
        let root = self.root;
        self.root = self
            .store
            .append(fields, root, first_of(ends, fields), number);
        Ok(())
    }

    fn mark_at(&self, at: u32) -> Mark
        requires { Marked self.now at }
        ensures { Reads self.now at result }
    {
        self.store.marks.get(at)
    }
}
