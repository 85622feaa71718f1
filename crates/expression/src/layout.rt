//! A layout: a table of nodes that was checked.
ghost use Rattle.expression.specs.Making.{Laid, Whole};

use crate::node::Node;

#[derive(Drop)]
pub struct Layout {
    pub(crate) nodes: Vec<Node>,
    ghost laid: { ∥ Laid nodes.items ∥₁ },
    ghost whole: { Whole nodes.items },
}
