//! How a checked node is made of the nodes before it.
ghost use Rattle.std.specs.Prelude.{◌≡◌, ◌<◌, length};
ghost use Rattle.expression.specs.Making.{last_one, last_two, leaf, letters_of, next_node, over};
ghost use Rattle.expression.specs.Nodes.{admits_at, admits_by};

use crate::node::{Node, Shape, count_letters};
use crate::raw::RawNode;

/// The nodes before one that is to be checked.
#[derive(Clone, Copy)]
pub(crate) struct Front<'a> {
    pub(crate) nodes: &'a [Node],
    ghost short: { length nodes.now < 255 },
}

impl Front<'_> {
    /// The number of letter nodes.
    fn letters(&self) -> u8
        ensures { result ≡ letters_of self.now.nodes.now }
    {
        count_letters(self.nodes)
    }

    /// Is the empty word a word of the part of the node with number `i`, if there is such a node?
    fn admits(&self, i: u8) -> bool
        ensures { result ≡ admits_at self.now.nodes.now i }
    {
        self.nodes
            .get(usize::from(i))
            .is_some_and(|node| node.admits)
    }

    /// Is the empty word a word of a node of this shape?
    fn admits_by(&self, shape: Shape) -> bool
        ensures { result ≡ admits_by (admits_at self.now.nodes.now) shape }
    {
        match shape {
            Shape::Letter(_) => false,
            Shape::Empty | Shape::Star(_) => true,
            Shape::Pair(first, second) => self.admits(first) && self.admits(second),
            Shape::Or(left, right) => self.admits(left) || self.admits(right),
        }
    }

    /// A node without children, with this many letter nodes up to it.
    fn leaf(&self, shape: Shape, letters: u8) -> Node
        ensures { result ≡ leaf self.now.nodes.now shape letters }
    {
        Node {
            shape,
            start: self.nodes.len() as u8,
            letters,
            admits: self.admits_by(shape),
        }
    }

    /// A node whose first child is the node `first`.
    fn over(&self, shape: Shape, first: u8) -> Node
        ensures { result ≡ over self.now.nodes.now shape first }
    {
        Node {
            shape,
            // Kept: with `map_or` this is total, so that nothing must require that the child is there.
            start: self
                .nodes
                .get(usize::from(first))
                .map_or(0, |node| node.start),
            letters: self.letters(),
            admits: self.admits_by(shape),
        }
    }

    /// The number of the last node, if there is one.
    fn last_one(&self) -> Option<u8>
        ensures { result ≡ last_one self.now.nodes.now }
    {
        let last = self.nodes.len().checked_sub(1)?;
        Some(last as u8)
    }

    /// The numbers of the node before the last one's part and of the last one, if there are such.
    fn last_two(&self) -> Option<(u8, u8)>
        ensures { result ≡ last_two self.now.nodes.now }
    {
        let second = self.last_one()?;
        let first = self.nodes[usize::from(second)].start.checked_sub(1)?;
        Some((first, second))
    }

    /// The checked form of the node that comes next, or none where it breaks.
    pub(crate) fn next(&self, raw: RawNode) -> Option<Node>
        ensures { result ≡ next_node self.now.nodes.now raw }
    {
        match raw {
            RawNode::Letter(code) => {
                let before = self.letters();
                // Kept: a closure in `then` tells nothing of what `leaf` answers unless it has a clause of its own, which is no plainer.
                if before < 128 {
                    Some(self.leaf(Shape::Letter(code), before + 1))
                } else {
                    None
                }
            }
            RawNode::Empty => Some(self.leaf(Shape::Empty, self.letters())),
            RawNode::Pair => {
                let (first, second) = self.last_two()?;
                Some(self.over(Shape::Pair(first, second), first))
            }
            RawNode::Or => {
                let (left, right) = self.last_two()?;
                Some(self.over(Shape::Or(left, right), left))
            }
            RawNode::Star => {
                let child = self.last_one()?;
                Some(self.over(Shape::Star(child), child))
            }
            RawNode::Unknown(_) => None,
        }
    }
}
