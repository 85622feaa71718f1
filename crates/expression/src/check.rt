//! The check of a table of nodes.
ghost use Rattle.std.specs.Prelude.{◌≡◌, ℕ, ◌≤◌, Bool, length, position};
ghost use Rattle.std.specs.Option.{unwrap_or};
ghost use Rattle.expression.specs.Checking.{Checked, mute as mute_by};
ghost use Rattle.expression.specs.Verdicts.{Answers, gives};

use crate::fault::TableFault;
use crate::front::Front;
use crate::layout::Layout;
use crate::node::Node;
use crate::raw::RawNode;
use alphabet::kind::Kind;
use std::alloc::Global;

/// The checked forms of the nodes of a table: first of those before the last of them, then its own.
fn check_nodes(heap: Global, table: &[RawNode]) -> Result<Vec<Node>, TableFault>
    requires { length table.now ≤ 255 }
    ensures { Checked table.now (length table.now) result }
{
    let Some((last, before)) = table.split_last() else {
        return Ok(Vec::new(heap));
    };
    let mut nodes = check_nodes(heap, before)?;
    let front = Front { nodes: &nodes };
    let node = front.next(*last).ok_or(TableFault::Breaks(before.len()))?;
    nodes.push(node)?;
    Ok(nodes)
}

/// The layout of a table in which `mute` is the first node whose code gives no letter, if there is one.
fn judge(heap: Global, table: &[RawNode], mute: Option<usize>) -> Result<Layout, TableFault>
    requires { unwrap_or mute (length table.now) ≤ length table.now }
    ensures { (give : ℕ → Bool) → mute ≡ position (mute_by give) table.now → Answers give table.now result }
{
    let count = table.len();
    if count == 0 {
        return Err(TableFault::Empty);
    }
    if count > 255 {
        return Err(TableFault::TooLong);
    }
    let nodes = check_nodes(heap, &table[..mute.unwrap_or(count)])?;
    if let Some(i) = mute {
        return Err(TableFault::Breaks(i));
    }
    if nodes[count - 1].start != 0 {
        return Err(TableFault::Unfinished(count));
    }
    Ok(Layout { nodes })
}

/// Is this a letter node whose code gives no letter?
fn is_mute<K: Kind>(node: RawNode) -> bool
    ensures { result ≡ mute_by (gives K.Kind.lettered) node }
{
    match node {
        RawNode::Letter(code) => K::letter(code).is_none(),
        _ => false,
    }
}

impl Layout {
    /// The layout of a table of nodes, children first, whose letters are of the kind `K`.
    /// A table that is not good is refused by its first fault: no nodes, more than 255, the lowest node that breaks, or a last
    /// node whose part is not the whole table.
    pub fn new<K: Kind>(heap: Global, table: &[RawNode]) -> Result<Layout, TableFault>
        ensures { Answers (gives K.Kind.lettered) table.now result }
    {
        let mute = table.iter().position(|node| is_mute::<K>(*node));
        judge(heap, table, mute)
    }
}
