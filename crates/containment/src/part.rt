//! A part of a layout.
ghost use Rattle.std.specs.Prelude.{◌≡◌, ◌<◌, length};
ghost use Rattle.expression.specs.Layouts.{nodes_of};
ghost use Rattle.expression.specs.Nodes.{last, node as node_of};

use expression::layout::Layout;
use expression::node::Node;

/// The part of a layout that a node ends.
#[derive(Clone, Copy)]
pub(crate) struct Part<'a> {
    pub(crate) layout: &'a Layout,
    pub(crate) node: u8,
    ghost within: { node < length (nodes_of layout.now) },
}

impl<'a> Part<'a> {
    /// All of a layout.
    pub(crate) fn whole(layout: &'a Layout) -> Part<'a>
        ensures layout { result.layout.now ≡ layout.now }
        ensures node { result.node ≡ last (nodes_of layout.now) }
    {
        Part {
            layout,
            node: layout.root(),
        }
    }

    /// The part that a lower node ends.
    pub(crate) fn below(self, node: u8) -> Part<'a>
        requires { node < self.node }
        ensures layout { result.layout.now ≡ self.entry.layout.now }
        ensures node { result.node ≡ node }
    {
        Part {
            layout: self.layout,
            node,
        }
    }

    // Kept: each crate reads a node under a contract of its own, since no public function may ask that there is such a node.
    /// The node.
    pub(crate) fn read(self) -> Node
        ensures { result ≡ node_of (nodes_of self.entry.layout.now) self.entry.node }
    {
        self.layout.nodes()[usize::from(self.node)]
    }
}
