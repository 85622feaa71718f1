//! The theory of parse trees. Each theorem is the contract of a function that does nothing.
ghost use Rattle.expression.specs.TreeTheorems.{Decodes, Finds, OneFirst, Ordered, TurnsDetermine, Unrolls};
ghost use Rattle.expression.specs.WorkedLines.{WorkedLines};

/// The order of trees is strict, transitive, and total on the trees of one expression.
#[tactic(auto, using(crate::proofs::TreeTheorems::ordered))]
pub fn trees_are_ordered()
    ensures { Ordered }
{}

/// A word has one first tree, and only words have one.
#[tactic(auto, using(crate::proofs::TreeTheorems::one_first))]
pub fn words_have_one_first_tree()
    ensures { OneFirst }
{}

/// Among the trees of one expression the turns determine the tree, and where its turns end.
#[tactic(auto, using(crate::proofs::TreeTheorems::turns_determine))]
pub fn turns_determine_the_tree()
    ensures { TurnsDetermine }
{}

/// Reading turns finds exactly the trees of an expression.
#[tactic(auto, using(crate::proofs::TreeTheorems::decodes))]
pub fn turns_decode()
    ensures { Decodes }
{}

/// The greedy search finds the first tree, or nothing exactly if there is no tree.
#[tactic(auto, using(crate::proofs::TreeTheorems::finds))]
pub fn search_finds_the_first_tree()
    ensures { Finds }
{}

/// A tree with letters is a route to its first letter and trees of what the route leaves to come, with the same letters and in the same order.
#[tactic(auto, using(crate::proofs::TreeTheorems::unrolls))]
pub fn trees_unroll()
    ensures { Unrolls }
{}

/// The worked lines hold.
#[tactic(auto, using(crate::proofs::WorkedLines::worked_lines_hold))]
pub fn worked_lines_hold()
    ensures { WorkedLines }
{}
