//! Layouts: regular expressions, written as tables of nodes.
#![tactic(auto)]

mod buffer;
pub mod check;
mod empty_turns;
pub mod fault;
mod front;
pub mod laws;
pub mod layout;
pub mod node;
pub mod place_theorems;
pub mod raw;
pub mod reads;
mod spell;
pub mod spell_fault;
#[cfg(test)]
mod spelling_tests;
mod steps;
#[cfg(test)]
mod tests;
pub mod tree_theorems;
mod walk;
