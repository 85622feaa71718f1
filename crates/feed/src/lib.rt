//! Feeds: letters that come one by one and then the end or a fault, which stays.
//! Here are the feeds of a field's bytes and of a file's lines, the layers that rename and skip, and gathering.
#![tactic(auto)]

pub mod byte_feed;
pub(crate) mod entries;
pub mod fault;
pub mod feed;
pub mod gathering;
pub mod layers;
pub(crate) mod line;
pub mod line_feed;
pub mod stacks;
pub(crate) mod table_checks;
pub mod tables;
#[cfg(test)]
mod tests;
