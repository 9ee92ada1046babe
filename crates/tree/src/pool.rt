// Records in a slice that the caller lends. They are taken one after the other and never given back.
ghost use Rattle.std.specs.Prelude.{◌≡◌, ◌≢◌, ◌<◌, length, Some, slice_get, IfSome, IfNone, OnSome};
ghost use Rattle.tree.specs.Pools.{space, Sets, Pushes};

use crate::records::NONE;

// The first ones are taken, so many: a slice that is lent does not grow, so the count stands beside it.
#[derive(Drop)]
pub(crate) struct Pool<'a, R> {
    pub(crate) records: &'a mut [R],
    pub(crate) taken: usize,
}

impl<R: Copy> Pool<'_, R> {
    pub(crate) fn get(&self, at: u32) -> R
        requires { at < length self.now.records.now }
        ensures { slice_get self.now.records.now at ≡ Some result }
    {
        self.records[at as usize]
    }

    // The record that a link leads to. A loop along a node or a cell asks for each in turn; an iterator would be no plainer, since only
    // the tree that the records make up shows that each of its steps is allowed.
    pub(crate) fn follow(&self, link: u32) -> Option<R>
        requires { link ≢ 0xffff_ffff → link < length self.now.records.now }
        ensures end { IfNone result (link ≡ 0xffff_ffff) }
        ensures more { OnSome result (link ≢ 0xffff_ffff) }
        ensures found { IfSome result (λ r. slice_get self.now.records.now link ≡ Some r) }
    {
        if link == NONE {
            return None;
        }
        Some(self.get(link))
    }

    pub(crate) fn set(&mut self, at: u32, value: R)
        requires { at < length self.old.records.now }
        ensures { Sets self.old self.new at value }
    {
        self.records[at as usize] = value;
    }

    // Takes one more. The answer is its index.
    #[tactic(auto, unfolding(crate::specs::Pools::space))]
    pub(crate) fn push(&mut self, value: R) -> u32
        requires { self.old.taken < space (length self.old.records.now) }
        ensures { Pushes self.old self.new result value }
    {
        let at = self.taken;
        self.records[at] = value;
        self.taken = at + 1;
        at as u32
    }
}
