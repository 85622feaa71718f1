//! Texts and their lines.
#![tactic(auto)]

pub mod iter;
pub mod lines;
