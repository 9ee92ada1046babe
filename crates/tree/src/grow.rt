// Appending a rule to the records of a tree.
ghost use Rattle.std.specs.Prelude.{◌≡◌, ℕ, ◌+◌, ◌-◌, ◌<◌, length, if◌then◌else◌, Some, None, nat_eq};
ghost use Rattle.shape.specs.Shapes.{cut_at, add_mark, under, cut_above, gaps, ready, insert};
ghost use Rattle.shape.specs.Meaning.{Upward};
ghost use Rattle.tree.specs.Links.{Records, shape, root, Stands, Can, Does, CanNode, DoesNode, tail, Gap, Inserted, Intervals};
ghost use Rattle.tree.specs.Pools.{space};
ghost use Rattle.tree.specs.declared.records.Store.{Store as AnyStore};

use crate::records::{Branch, Mark, NONE, Store};
use routing::ends::Ends;

// One above the last number there is none, so that no cut wraps to 0.
fn one_above(high: u32) -> Option<u32>
    ensures { result ≡ (if nat_eq high 0xffff_ffff then None else Some (high + 1)) }
{
    high.checked_add(1)
}

// `branches` and `upward` stand in several contracts, here and where space is counted: a type for a node with a field left, or for ends that run upward, would have one
// maker and be taken apart at each call.
impl Store<'_> {
    // Cuts the branch that has `x` strictly inside, of the node that starts at `first`, in two below `x`.
    // The upper part has its own copy of what is below.
    fn cut(&mut self, left: usize, first: u32, x: u32)
        requires branches { 0 < left }
        requires room { Can self.old left first (cut_at x) }
        ensures { Does self.old self.new left first first (cut_at x) }
    {
        let mut at = first;
        while let Some(b) = self.branches.follow(at) {
            if b.low < x && x <= b.high {
                let copy = self.copy_node(left - 1, b.below);
                let new = self.branches.push(Branch {
                    low: x,
                    below: copy,
                    ..b
                });
                self.branches.set(
                    at,
                    Branch {
                        high: x - 1,
                        next: new,
                        ..b
                    },
                );
                return;
            }
            at = b.next;
        }
    }

    // Adds the mark `i` at the end of the cell that starts at `first`. The answer is where the cell starts then.
    fn add_mark(&mut self, first: u32, i: u16) -> u32
        requires { Can self.old 0 first (add_mark i) }
        ensures { Does self.old self.new 0 first result (add_mark i) }
    {
        let mark = Mark {
            rule: i,
            next: NONE,
        };
        let Some(mut last) = self.marks.follow(first) else {
            return self.marks.push(mark);
        };
        let mut at = first;
        while let Some(next) = last.next() {
            at = next;
            last = self.marks.get(at);
        }
        let new = self.marks.push(mark);
        self.marks.set(at, Mark { next: new, ..last });
        first
    }

    // Cuts the branch that has `high` and the number after it, between the two.
    fn cut_above(&mut self, left: usize, first: u32, high: u32)
        requires branches { 0 < left }
        requires room { Can self.old left first (cut_above high) }
        ensures { Does self.old self.new left first first (cut_above high) }
    {
        // above the last number there is nothing to cut
        if let Some(above) = one_above(high) {
            self.cut(left, first, above);
        }
    }

    // The gap of a span before the branches that begin at `next`; none, where they begin with the span or below.
    fn gap_before(&self, next: u32, span: Ends) -> Option<Ends>
        requires node { (d : ℕ) × (t : Records) × (0 < d) × Stands self.now d t × (root t ≡ next) }
        requires upward { Upward span }
        ensures { (d : ℕ) (t : Records) → 0 < d → Stands self.now d t → root t ≡ next → Gap span (shape t) result }
    {
        let Some(upper) = self.branches.follow(next) else {
            return Some(span);
        };
        if span.low < upper.low {
            return Some(Ends {
                high: span.high.min(upper.low - 1),
                ..span
            });
        }
        None
    }

    // Puts a new branch, with nothing below it, after the one at `at`.
    fn put_after(&mut self, at: u32, gap: Ends)
        requires inside { at < length self.old.branches.records.now }
        requires room { self.old.branches.taken < space (length self.old.branches.records.now) }
        ensures { (s : AnyStore) × ((new : ℕ) × Inserted self.old s self.new at gap new) }
    {
        let b = self.branches.get(at);
        let new = self.branches.push(Branch {
            low: gap.low,
            high: gap.high,
            below: NONE,
            next: b.next,
        });
        self.branches.set(at, Branch { next: new, ..b });
    }

    // Fills the gaps of a span that come after the first branch of the node at `first`.
    fn fill_after(&mut self, first: u32, span: Ends)
        requires room { CanNode self.old first (tail span.low span.high) }
        requires upward { Upward span }
        ensures { DoesNode self.old self.new first first (tail span.low span.high) }
    {
        let mut at = first;
        let mut want = span.low;
        while let Some(b) = self.branches.follow(at) {
            if span.high <= b.high {
                return;
            }
            want = want.max(b.high + 1);
            if let Some(gap) = self.gap_before(b.next, Ends { low: want, ..span }) {
                self.put_after(at, gap);
            }
            at = b.next;
        }
    }

    // Fills the gaps of a span in the node at `first`. The answer is where it starts then.
    fn fill(&mut self, first: u32, span: Ends) -> u32
        requires room { CanNode self.old first (gaps span.low span.high) }
        requires upward { Upward span }
        ensures { DoesNode self.old self.new first result (gaps span.low span.high) }
    {
        let front = self.gap_before(first, span);
        self.fill_after(first, span);
        match front {
            Some(gap) => self.branches.push(Branch {
                low: gap.low,
                high: gap.high,
                below: NONE,
                next: first,
            }),
            None => first,
        }
    }

    // Cuts the node at `first` at the ends of an interval, and fills the gaps within.
    fn prepare(&mut self, left: usize, first: u32, ends: Ends) -> u32
        requires branches { 0 < left }
        requires room { Can self.old left first (ready ends.low ends.high) }
        requires upward { Upward ends }
        ensures { Does self.old self.new left first result (ready ends.low ends.high) }
    {
        self.cut(left, first, ends.low);
        self.cut_above(left, first, ends.high);
        self.fill(first, ends)
    }

    // Appends the rest of the rule `i`, below each branch of the node at `first` that lies within `ends`.
    #[cycle(append_descend)]
    fn descend(&mut self, left: usize, first: u32, ends: Ends, rest: &[Ends], i: u16)
        requires branches { 0 < left }
        requires room { Can self.old left first (under ends.low ends.high (insert rest.now i)) }
        requires rest { Intervals (left - 1) rest.now }
        ensures { Does self.old self.new left first first (under ends.low ends.high (insert rest.now i)) }
    {
        let mut at = first;
        while let Some(b) = self.branches.follow(at) {
            if b.is_within(ends) {
                let below = self.append(left - 1, b.below, rest, i);
                self.branches.set(at, Branch { below, ..b });
            }
            at = b.next;
        }
    }

    // Appends the rule `i` with these intervals to the tree at `first`. The answer is where it starts then. It calls itself for each field
    // that is left, eight at most; a walk, which a caller takes step by step, is a loop.
    #[cycle(append_descend)]
    pub(crate) fn append(&mut self, left: usize, first: u32, rule: &[Ends], i: u16) -> u32
        requires room { Can self.old left first (insert rule.now i) }
        requires rule { Intervals left rule.now }
        ensures { Does self.old self.new left first result (insert rule.now i) }
    {
        if left == 0 {
            return self.add_mark(first, i);
        }
        let ends = rule[0];
        let first = self.prepare(left, first, ends);
        self.descend(left, first, ends, &rule[1..], i);
        first
    }
}
