//! Reading: the first tree of letters under a layout.
#![tactic(auto)]

mod entered;
pub mod fault;
mod fill;
pub mod laws;
pub mod reading;
mod rows;
mod steps;
#[cfg(test)]
mod tests;
mod turns;
mod walk;
