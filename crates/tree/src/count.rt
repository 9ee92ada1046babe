// The space that a tree takes, and what it would take with one more rule. Nothing is written.
ghost use Rattle.std.specs.Prelude.{◌≡◌, ℕ, ◌+◌, ◌-◌, ◌<◌, ◌&&◌, if◌then◌else◌, nat_le, nat_lt};
ghost use Rattle.shape.specs.Shapes.{piece, insert};
ghost use Rattle.shape.specs.Meaning.{within};
ghost use Rattle.tree.specs.Links.{Records, Intervals, shape};
ghost use Rattle.tree.specs.Reads.{Stood, SomeTree, weight, Weighs};

use crate::records::{Branch, NONE, Store};
use crate::space::{NOTHING, ONE_BRANCH, ONE_MARK, Space};
use routing::ends::Ends;

// The first number past an interval.
fn past(ends: Ends) -> u64
    ensures { result ≡ ends.high + 1 }
{
    u64::from(ends.high) + 1
}

impl Store<'_> {
    // What the marks of the cell at `first` take. A loop of its own: nothing is below a mark.
    fn space_of_cell(&self, first: u32) -> Space
        requires { SomeTree self.now 0 first }
        ensures { (t : Records) → Stood self.now 0 first t → Weighs result (λ p q. weight p q (shape t)) }
    {
        let mut sum = NOTHING;
        let mut at = first;
        while let Some(m) = self.marks.follow(at) {
            sum = sum.plus(ONE_MARK);
            at = m.next;
        }
        sum
    }

    // What the node or cell at `first` takes.
    fn space_of(&self, left: usize, first: u32) -> Space
        requires { SomeTree self.now left first }
        ensures { (t : Records) → Stood self.now left first t → Weighs result (λ p q. weight p q (shape t)) }
    {
        if left == 0 {
            return self.space_of_cell(first);
        }
        let mut sum = NOTHING;
        let mut at = first;
        while let Some(b) = self.branches.follow(at) {
            sum = sum.plus(ONE_BRANCH).plus(self.space_of(left - 1, b.below));
            at = b.next;
        }
        sum
    }

    // What the parts of a branch outside an interval take.
    fn outside(&self, left: usize, b: Branch, ends: Ends) -> Space
        requires branch { 0 < left }
        requires below { SomeTree self.now (left - 1) b.below }
        ensures { (t : Records) → Stood self.now (left - 1) b.below t → Weighs result (λ p q.
            if within ends (piece b.low b.high) then 0
            else (if nat_lt b.low ends.low && nat_lt ends.high b.high then p + weight p q (shape t) + (p + weight p q (shape t)) else p + weight p q (shape t))) }
    {
        if b.is_within(ends) {
            return NOTHING;
        }
        let part = ONE_BRANCH.plus(self.space_of(left - 1, b.below));
        if b.low < ends.low && ends.high < b.high {
            return part.plus(part);
        }
        part
    }

    // What the part of a branch inside an interval takes, with the rest of the rule below.
    #[cycle(inside_space_with)]
    fn inside(&self, left: usize, b: Branch, ends: Ends, rest: &[Ends]) -> Space
        requires branch { 0 < left }
        requires below { SomeTree self.now (left - 1) b.below }
        requires rest { Intervals (left - 1) rest.now }
        ensures { (t : Records) (i : ℕ) → Stood self.now (left - 1) b.below t → Weighs result (λ p q.
            (if nat_le ends.low b.high && nat_le b.low ends.high then p + weight p q (insert rest.now i (shape t)) else 0)) }
    {
        if ends.low <= b.high && b.low <= ends.high {
            return ONE_BRANCH.plus(self.space_with(left - 1, b.below, rest));
        }
        NOTHING
    }

    // What the tree at `first` would take with one more rule of these intervals.
    #[cycle(inside_space_with)]
    pub(crate) fn space_with(&self, left: usize, first: u32, rule: &[Ends]) -> Space
        requires tree { SomeTree self.now left first }
        requires rule { Intervals left rule.now }
        ensures { (t : Records) (i : ℕ) → Stood self.now left first t → Weighs result (λ p q. weight p q (insert rule.now i (shape t))) }
    {
        if left == 0 {
            return self.space_of_cell(first).plus(ONE_MARK);
        }
        let ends = rule[0];
        let rest = &rule[1..];
        let new = ONE_BRANCH.plus(self.space_with(left - 1, NONE, rest));
        let end = past(ends);
        let mut want = u64::from(ends.low);
        let mut sum = NOTHING;
        let mut at = first;
        while let Some(b) = self.branches.follow(at) {
            let gap = new.when(want < end.min(u64::from(b.low)));
            let parts = self
                .outside(left, b, ends)
                .plus(self.inside(left, b, ends, rest));
            sum = sum.plus(gap).plus(parts);
            want = want.max(past(b.ends()));
            at = b.next;
        }
        sum.plus(new.when(want < end))
    }
}
