//! What is read of a layout.
ghost use Rattle.std.specs.Prelude.{◌≡◌, ◌<◌, length};
ghost use Rattle.expression.specs.Layouts.{nodes_of, places_of};
ghost use Rattle.expression.specs.Nodes.{last, node};

use crate::layout::Layout;
use crate::node::{Node, count_letters};

impl Layout {
    /// The nodes, children first.
    #[inline]
    pub fn nodes(&self) -> &[Node]
        ensures { result.now ≡ nodes_of self.now }
    {
        self.nodes.as_slice()
    }

    // Kept: each crate reads a node under a contract of its own, since no public function may ask that there is such a node.
    /// The node with number `i`.
    #[inline]
    pub(crate) fn node(&self, i: u8) -> Node
        requires { i < length (nodes_of self.now) }
        ensures { result ≡ node (nodes_of self.now) i }
    {
        self.nodes[usize::from(i)]
    }

    /// The number of nodes.
    #[inline]
    pub fn len(&self) -> usize
        ensures { result ≡ length (nodes_of self.now) }
    {
        self.nodes.len()
    }

    /// The number of the last node, which ends the whole layout.
    #[inline]
    pub fn root(&self) -> u8
        ensures { result ≡ last (nodes_of self.now) }
    {
        (self.nodes.len() - 1) as u8
    }

    /// The number of places, which are the letter nodes.
    #[inline]
    pub fn places(&self) -> u8
        ensures { result ≡ places_of self.now }
    {
        count_letters(&self.nodes)
    }
}
