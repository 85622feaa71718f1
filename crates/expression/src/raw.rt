//! The nodes of a table as they arrive, unchecked.

/// One node of a table. Its children stand before it.
#[derive(Clone, Copy, PartialEq, Eq, Debug)]
pub enum RawNode {
    /// A letter, by its code.
    Letter(u16),
    /// The empty word.
    Empty,
    Pair,
    Or,
    Star,
    /// A kind of node that there is not.
    Unknown(u8),
}
