//! Which nodes of a layout a letter may be the first one in.
ghost use Rattle.std.specs.Prelude.{◌≡◌, ◌<◌, [], length};
ghost use Rattle.expression.specs.Layouts.{nodes_of};
ghost use Rattle.expression.specs.Places.{item};
ghost use Rattle.matching.specs.Holding.{Tells, held, whole};
ghost use Rattle.matching.specs.Passes.{Entries, enters_in, usable};

use expression::layout::Layout;
use expression::node::{Node, Shape};

/// A set of nodes: of each node, is it in the set?
pub(crate) type NodeSet = [bool; 256];

/// The set of no node.
// Kept: a static, since a borrowed array of a function's own is cleared at each call.
static NOWHERE: NodeSet = [false; 256];

/// A layout, and which of its nodes a letter may be the first one in.
/// The fields `code` and `next` tell contracts what the letter is; once the nodes are found, no code reads them.
#[derive(Drop)]
pub(crate) struct Entered<'a> {
    pub(crate) layout: &'a Layout,
    /// The code of the letter.
    pub(crate) code: u16,
    /// A row, which tells which places can finish the letters after it.
    pub(crate) next: &'a [u8],
    /// Whether the letter may be the first one in the node with each number.
    // Kept: lent, since a copy of the set for each letter, and one where no letter is left, would take more than what is done with it.
    pub(crate) enterable: &'a NodeSet,
    ghost right: { Entries layout.now code next.now enterable.now (length (nodes_of layout.now)) },
}

/// Does this row say that a place can finish the letters?
pub(crate) fn can_finish(bytes: &[u8], place: u8) -> bool
    ensures { result ≡ usable bytes.now place }
{
    bytes.get(usize::from(place)) == Some(&1)
}

// Kept: each crate reads a node under a contract of its own, since no public function may ask that there is such a node.
/// The node with number `i`.
#[tactic(auto, using(crate::proofs::Holding::tells))]
pub(crate) fn read(layout: &Layout, i: u8) -> Node
    requires { i < length (nodes_of layout.now) }
    ensures { Tells layout.now i result }
{
    layout.nodes()[usize::from(i)]
}

/// May a letter be the first one in node `i`? Which nodes below it may be entered stands in `told`.
fn enters(layout: &Layout, code: u16, next: &[u8], told: &NodeSet, i: u8) -> bool
    requires inside { i < length (nodes_of layout.now) }
    requires below { Entries layout.now code next.now told.now i }
    ensures { result ≡ enters_in code (usable next.now) (held layout.now i) }
{
    let here = read(layout, i);
    match here.shape {
        Shape::Letter(own) => code == own && can_finish(next, here.letters),
        Shape::Empty => false,
        Shape::Pair(first, second) => {
            told[usize::from(first)] || (read(layout, first).admits && told[usize::from(second)])
        }
        Shape::Or(first, second) => told[usize::from(first)] || told[usize::from(second)],
        Shape::Star(child) => told[usize::from(child)],
    }
}

/// Notes of each node whether a letter with this code may be the first one in it, where `next` tells which places can finish the letters after it.
#[tactic(auto, using(crate::proofs::Passes::enter_more))]
pub(crate) fn note_entries(layout: &Layout, code: u16, next: &[u8], enterable: &mut NodeSet)
    ensures { Entries layout.now code next.now enterable.new (length (nodes_of layout.now)) }
{
    // Kept: each answer looks up those of lower nodes by their numbers while it is noted.
    for i in 0..layout.len() as u8 {
        let may = enters(layout, code, next, enterable, i);
        enterable[usize::from(i)] = may;
    }
}

impl<'a> Entered<'a> {
    /// A letter with this code, and the nodes that it may be the first one in, as they were noted.
    pub(crate) fn new(
        layout: &'a Layout,
        code: u16,
        next: &'a [u8],
        enterable: &'a NodeSet,
    ) -> Entered<'a>
        requires { Entries layout.now code next.now enterable.now (length (nodes_of layout.now)) }
        ensures layout { result.layout.now ≡ layout.now }
        ensures code { result.code ≡ code }
        ensures next { result.next.now ≡ next.now }
    {
        Entered {
            layout,
            code,
            next,
            enterable,
        }
    }

    // Kept: the code 0 and an empty row stand for no letter, since contracts alone read them.
    /// No node may be entered: no letter is left.
    #[tactic(auto, using(crate::proofs::Passes::entries_none))]
    pub(crate) fn nowhere(layout: &'a Layout) -> Entered<'a>
        ensures layout { result.layout.now ≡ layout.now }
        ensures code { result.code ≡ 0 }
        ensures next { result.next.now ≡ [] }
    {
        Entered::new(layout, 0, &[], &NOWHERE)
    }

    /// The number of the last node, which holds the whole expression.
    #[tactic(auto, using(crate::proofs::Holding::root_holds))]
    pub(crate) fn root(&self) -> u8
        ensures inside { result < length (nodes_of self.now.layout.now) }
        ensures all { held self.now.layout.now result ≡ item 0 (whole self.now.layout.now) }
    {
        self.layout.root()
    }
}
