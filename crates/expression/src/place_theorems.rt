//! The theory of places. Each theorem is the contract of a function that does nothing.
ghost use Rattle.expression.specs.PlaceTheorems.{Automaton, Finishes, Walks};

/// Places and what follows them make up an automaton.
#[tactic(auto, using(crate::proofs::PlaceTheorems::automaton))]
pub fn places_are_an_automaton()
    ensures { Automaton }
{}

/// A place can finish letters exactly if trees of its continuation spell them, so place 0 can exactly if they are a word.
#[tactic(auto, using(crate::proofs::PlaceTheorems::finishing))]
pub fn places_finish_words()
    ensures { Finishes }
{}

/// The walk over places gives the turns of the first tree.
#[tactic(auto, using(crate::proofs::PlaceTheorems::walks))]
pub fn walk_gives_the_first_tree()
    ensures { Walks }
{}
