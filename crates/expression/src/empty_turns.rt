//! The turns of the first tree of a node that spells nothing.
ghost use Rattle.std.specs.Prelude.{◌≡◌, [], length};
ghost use Rattle.std.specs.Option.{option_map, unwrap_or};
ghost use Rattle.expression.specs.Passing.{Put, Skips};
ghost use Rattle.expression.specs.Spelling.{empty_turns_at, written};

use crate::buffer::put;
use crate::layout::Layout;
use crate::node::Shape;

impl Layout {
    /// Writes the turns of the first tree without letters of node `i` from `at` on, as far as there is room, and counts them.
    // Kept: a public contract tells of a place in a whole buffer, so the place goes along beside it.
    fn put_below(&self, i: u8, turns: &mut [u8], at: usize) -> u8
        requires { Skips self.now i }
        ensures { Put (unwrap_or (empty_turns_at self.now i) []) at result turns.old turns.new }
    {
        match self.node(i).shape {
            Shape::Letter(_) | Shape::Empty => 0,
            Shape::Pair(first, second) => {
                let before = self.put_below(first, turns, at);
                let after = at.saturating_add(usize::from(before));
                before + self.put_below(second, turns, after)
            }
            Shape::Or(left, right) => {
                let (turn, side) = if self.node(left).admits {
                    (0, left)
                } else {
                    (1, right)
                };
                put(turns, at, turn);
                1 + self.put_below(side, turns, at.saturating_add(1))
            }
            Shape::Star(_) => {
                put(turns, at, 1);
                1
            }
        }
    }

    /// Writes the turns of the first tree without letters of the part that `node` ends into `turns` from `at` on, as far as there is room, and answers how many they are. None where the part has no such tree, or the layout no such node.
    #[inline]
    pub fn put_empty_tree(&self, node: u8, turns: &mut [u8], at: usize) -> Option<u8>
        ensures count { result ≡ option_map length (empty_turns_at self.now node) }
        ensures buffer { turns.new ≡ written (unwrap_or (empty_turns_at self.now node) []) at turns.old }
    {
        // Kept: `then` tells nothing of the turns where the part has no such tree.
        if self.nodes.get(usize::from(node))?.admits {
            Some(self.put_below(node, turns, at))
        } else {
            None
        }
    }
}
