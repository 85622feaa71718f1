//! Letters: what a layout's words are made of. Each kind of letters gives each letter a code of its own.
#![tactic(auto)]

pub mod bytes;
pub mod kind;
pub mod mark;
pub mod marks;
