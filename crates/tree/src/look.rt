// The cell of a message.
ghost use Rattle.std.specs.Prelude.{ℕ, ◌-◌, ◌<◌, ◌≤◌, take};
ghost use Rattle.tree.specs.Links.{Records, shape};
ghost use Rattle.tree.specs.Lookups.{seek_in, look_up, Has};
ghost use Rattle.tree.specs.Reads.{Stood, SomeTree};

use crate::records::{NONE, Store};
use routing::rule::Message;

impl Store<'_> {
    // What is below the branch that holds the value, of the node at `first`. Branches are compared from the lowest upward, until one
    // holds it or begins above it.
    fn seek(&self, first: u32, value: u32) -> u32
        requires { (d : ℕ) × (0 < d) × SomeTree self.now d first }
        ensures { (d : ℕ) (t : Records) → 0 < d → Stood self.now d first t → (u : Records) × Has self.now (d - 1) result (seek_in value (shape t)) u }
    {
        let mut at = first;
        while let Some(b) = self.branches.follow(at) {
            if b.ends().holds(value) {
                return b.below;
            }
            if value < b.low {
                return NONE;
            }
            at = b.next;
        }
        NONE
    }

    // The first mark in the cell of the message, in a tree of so many fields.
    pub(crate) fn cell(&self, fields: usize, first: u32, message: Message) -> u32
        requires tree { SomeTree self.now fields first }
        requires few { fields ≤ 8 }
        ensures { (t : Records) → Stood self.now fields first t → (u : Records) × Has self.now 0 result (look_up (take fields message) (shape t)) u }
    {
        let mut at = first;
        for &value in &message[..fields] {
            at = self.seek(at, value);
        }
        at
    }
}
