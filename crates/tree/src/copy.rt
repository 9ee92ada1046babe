// Copies of nodes and branches.
ghost use Rattle.std.specs.Prelude.{◌≡◌, ◌≢◌, ◌<◌};
ghost use Rattle.shape.specs.Shapes.{Label};
ghost use Rattle.tree.specs.Memory.{look, live, link_of, next_of, with_next, Written};
ghost use Rattle.tree.specs.Links.{Records, item, place, Copiable, Copied, CopiedOne};

use crate::records::{Branch, Mark, NONE, Store, leads};

// Where no field is left the recursion ends: that is what `left == 0` says, here and where a rule is appended or space is counted.
impl Store<'_> {
    // A copy, in new records, of the node or cell that starts at `first`, with `left` fields left. The two stay two parameters, here and in
    // all that goes down the tree: each call passes another pair, `left - 1` and the link below, so a struct would be built and taken apart.
    #[cycle(copy_branch_copy_node)]
    pub(crate) fn copy_node(&mut self, left: usize, first: u32) -> u32
        requires { (t : Records) × Copiable self.old left first t }
        ensures { (t : Records) → Copiable self.old left first t → (u : Records) × Copied self.old self.new left t result u }
    {
        // a link as it lies in its record, answered as it is
        if first == NONE {
            return NONE;
        }
        let head = self.copy_branch(left, first);
        let mut last = head;
        let mut at = first;
        while let Some(next) = self.next(left, at) {
            let new = self.copy_branch(left, next);
            self.link(left, last, new);
            last = new;
            at = next;
        }
        head
    }

    // A copy, in new records, of the branch or mark at `at` and what is below it; nothing follows it.
    #[cycle(copy_branch_copy_node)]
    fn copy_branch(&mut self, left: usize, at: u32) -> u32
        requires linked { at ≢ 0xffff_ffff }
        requires tree { (t : Records) × Copiable self.old left at t }
        ensures { (l : Label) (below rest : Records) → Copiable self.old left at (item at l below rest) → (u : Records) × CopiedOne self.old self.new left l below result u }
    {
        if left == 0 {
            let m = self.marks.get(at);
            self.marks.push(Mark { next: NONE, ..m })
        } else {
            let b = self.branches.get(at);
            let below = self.copy_node(left - 1, b.below);
            self.branches.push(Branch {
                below,
                next: NONE,
                ..b
            })
        }
    }

    // The link of the record at `at` to the next one of its node or cell, if there is one. A cell has marks and a node branches; a trait
    // over both would be longer than the two arms, here and in `link`.
    fn next(&self, left: usize, at: u32) -> Option<u32>
        requires { 0 < live self.now (place left at) }
        ensures { result ≡ link_of (next_of (look self.now (place left at))) }
    {
        let next = if left == 0 {
            self.marks.get(at).next
        } else {
            self.branches.get(at).next
        };
        leads(next)
    }

    // Makes `next` follow the record at `at`.
    fn link(&mut self, left: usize, at: u32, next: u32)
        requires { 0 < live self.old (place left at) }
        ensures { Written self.old self.new (place left at) (with_next (look self.old (place left at)) next) }
    {
        if left == 0 {
            let m = self.marks.get(at);
            self.marks.set(at, Mark { next, ..m });
        } else {
            let b = self.branches.get(at);
            self.branches.set(at, Branch { next, ..b });
        }
    }
}
