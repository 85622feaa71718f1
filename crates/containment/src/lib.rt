//! Containment: whether the words of one layout are words of another, judged from rows or from a word.
#![tactic(auto)]

mod after;
pub mod fault;
mod index;
pub mod judge;
mod list;
mod part;
mod passes;
mod places;
pub mod refusal;
mod scene;
mod sets;
#[cfg(test)]
mod tests;
pub mod theorems;
mod want;
pub mod word;
