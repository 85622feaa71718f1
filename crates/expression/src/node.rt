//! The nodes of a layout: checked, with what later steps read off them.
ghost use Rattle.std.specs.Prelude.{◌≡◌};
ghost use Rattle.expression.specs.Making.{letters_of};

/// What a node's part is made of. A child is told by its number.
#[derive(Clone, Copy, PartialEq, Eq, Debug)]
pub enum Shape {
    /// A letter, by its code.
    Letter(u16),
    /// The empty word.
    Empty,
    /// Two parts, one after the other.
    Pair(u8, u8),
    /// Either of two parts.
    Or(u8, u8),
    /// A list of words of one part.
    Star(u8),
}

/// One checked node.
#[derive(Clone, Copy, PartialEq, Eq, Debug)]
pub struct Node {
    pub shape: Shape,
    /// Where the node's part begins.
    pub start: u8,
    /// The number of letter nodes up to this one: of a letter node, its place.
    pub letters: u8,
    /// Is the empty word a word of the node's part?
    pub admits: bool,
}

/// The number of letter nodes up to the last of these nodes.
#[inline]
pub(crate) fn count_letters(nodes: &[Node]) -> u8
    ensures { result ≡ letters_of nodes.now }
{
    nodes.last().map_or(0, |last| last.letters)
}
