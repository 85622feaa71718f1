//! Two passes over the nodes of a layout: up for the parts that may close with a place of a set, down for the places that come next.
ghost use Rattle.std.specs.Prelude.{◌≡◌, Bool, List, length};
ghost use Rattle.expression.specs.Layouts.{nodes_of};
ghost use Rattle.expression.specs.Nodes.{node as node_of};
ghost use Rattle.containment.specs.Passes.{Closing, Coded, Spread, closes_by};

use crate::part::Part;
use crate::places::Codes;
use crate::sets::Set;
use expression::layout::Layout;
use expression::node::Shape;

/// As many as a byte can number; a layout has fewer nodes.
const NODES: usize = 256;

/// A set of nodes: of each node, is it in the set?
pub(crate) type NodeSet = [bool; NODES];

#[tactic(auto, using(crate::proofs::Wiring::wired))]
impl Part<'_> {
    // Kept: reading has such a pass of its own; one for both would take what a letter and a pair say as closures, which is no plainer.
    /// May a word of the part close with a place of the set? The answers of its children stand in `closing`.
    fn closes(self, set: &Set, closing: &NodeSet) -> bool
        ensures { result ≡ closes_by (nodes_of self.entry.layout.now) set.now closing.now (node_of (nodes_of self.entry.layout.now) self.entry.node).letters
            (node_of (nodes_of self.entry.layout.now) self.entry.node).shape }
    {
        let here = self.read();
        match here.shape {
            Shape::Letter(_) => set[usize::from(here.letters)],
            Shape::Empty => false,
            Shape::Pair(first, second) => {
                closing[usize::from(second)]
                    || (self.below(second).read().admits && closing[usize::from(first)])
            }
            Shape::Or(first, second) => closing[usize::from(first)] || closing[usize::from(second)],
            Shape::Star(child) => closing[usize::from(child)],
        }
    }

    /// Adds the places of the part that come next; `reached` says whether the first ones of its words do.
    pub(crate) fn spread(self, closing: &NodeSet, reached: bool, out: &mut Set)
        ensures { (set : List Bool) → Closing (nodes_of self.entry.layout.now) set closing.now (length (nodes_of self.entry.layout.now))
            → Spread (nodes_of self.entry.layout.now) set self.entry.node reached out.old out.new }
    {
        let here = self.read();
        match here.shape {
            Shape::Letter(_) => {
                if reached {
                    out[usize::from(here.letters)] = true;
                }
            }
            Shape::Empty => {}
            Shape::Pair(first, second) => {
                let before = self.below(first);
                before.spread(closing, reached, out);
                let past = (reached && before.read().admits) || closing[usize::from(first)];
                self.below(second).spread(closing, past, out);
            }
            Shape::Or(first, second) => {
                self.below(first).spread(closing, reached, out);
                self.below(second).spread(closing, reached, out);
            }
            Shape::Star(child) => {
                let again = reached || closing[usize::from(child)];
                self.below(child).spread(closing, again, out);
            }
        }
    }

    /// Puts the codes of the part's places into a table.
    pub(crate) fn put_codes(self, out: &mut Codes)
        ensures { Coded (nodes_of self.entry.layout.now) self.entry.node out.old out.new }
    {
        let here = self.read();
        match here.shape {
            Shape::Letter(code) => out[usize::from(here.letters)] = code,
            Shape::Empty => {}
            Shape::Pair(first, second) | Shape::Or(first, second) => {
                self.below(first).put_codes(out);
                self.below(second).put_codes(out);
            }
            Shape::Star(child) => self.below(child).put_codes(out),
        }
    }
}

/// Which nodes have a word that closes with a place of the set?
pub(crate) fn closing(layout: &Layout, set: &Set) -> NodeSet
    ensures { Closing (nodes_of layout.now) set.now result (length (nodes_of layout.now)) }
{
    let mut closing = [false; NODES];
    // Kept: no enumerate, since a part is made from a number, and answers are looked up by number while they are noted.
    for node in 0..layout.len() as u8 {
        let closes = Part { layout, node }.closes(set, &closing);
        closing[usize::from(node)] = closes;
    }
    closing
}
