//! The forms that a line can be.
use expression::raw::RawNode;

/// What a line asks for.
#[derive(Drop)]
pub enum Form {
    /// Lodge a layout, by the table of its nodes: each after its parts, letters by their codes.
    Lodge(Vec<RawNode>),
}
