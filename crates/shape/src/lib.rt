// Theorems on the tree of a list of rules. Each function's contract is one, and its body says nothing.
#![tactic(auto)]

ghost use Rattle.shape.specs.Examples.{WorkedTrees};
ghost use Rattle.shape.specs.Meaning.{GrownMore, SpaceIsExact, OrderIsKept, LookUpIsRight, CellsAreRight, CellsCover};

/// A table's tree with one rule more is its tree before, after the insertion of that rule with the next number.
#[tactic(auto, using(crate::proofs::Grown::grown_more_lem))]
pub fn grown_more()
    ensures { GrownMore }
{}

/// The tree of a list of rules has exactly the branches and the marks that the rules need.
#[tactic(auto, using(crate::proofs::Counts::space_exact))]
pub fn space_is_exact()
    ensures { SpaceIsExact }
{}

/// In every node the branches run upward and do not overlap, and in every cell the marks ascend.
#[tactic(auto, using(crate::proofs::Orders::order_kept))]
pub fn order_is_kept()
    ensures { OrderIsKept }
{}

/// A message reaches the cell with the numbers of the rules that match it, or matches no rule.
#[tactic(auto, using(crate::proofs::Finds::look_up_right))]
pub fn look_up_is_right()
    ensures { LookUpIsRight }
{}

/// The cells below branches within given intervals come in the order of their smallest messages. Each has the numbers
/// of the rules that match its messages, at least one, and holds a message.
#[tactic(auto, using(crate::proofs::Walks::cells_right))]
pub fn cells_are_right()
    ensures { CellsAreRight }
{}

/// Each message that a rule matches lies in a cell below branches within the rule's intervals.
#[tactic(auto, using(crate::proofs::Covers::cells_cover_lem))]
pub fn cells_cover()
    ensures { CellsCover }
{}

/// What the definitions of the tree give on worked examples.
pub fn worked_trees()
    ensures { WorkedTrees }
{}
