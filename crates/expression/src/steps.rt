//! The steps of a walk along a layout.
ghost use Rattle.std.specs.Prelude.{◌≡◌, false};
ghost use Rattle.expression.specs.Following.{Begun, Moved, Next, Turned, Visited};

use crate::layout::Layout;
use crate::node::Shape;
use crate::walk::{NoTree, Pending, Walk};
use arrayvec::ArrayVec;

/// The first turn, false for 0 and true for 1, and the turns after it.
fn split_turn(turns: &[u8]) -> Result<(bool, &[u8]), NoTree>
    ensures { Turned turns.now result }
{
    match turns {
        [0, rest @ ..] => Ok((false, rest)),
        [1, rest @ ..] => Ok((true, rest)),
        _ => Err(NoTree),
    }
}

impl Pending {
    /// A node that may be visited at once.
    fn at_once(node: u8) -> Pending
        ensures { result ≡ record { node = node; again = false } }
    {
        Pending { node, again: false }
    }
}

impl<'a> Walk<'a> {
    /// A walk at the start of a layout.
    pub(crate) fn new(layout: &'a Layout, turns: &'a [u8]) -> Self
        ensures { Begun layout.now turns.now result }
    {
        let mut pending = ArrayVec::new();
        pending.push(Pending::at_once(layout.root()));
        Walk {
            layout,
            turns,
            pending,
            bare: false,
            letters: 0,
        }
    }

    /// Visits the node `i`, which was on top, and gives its code if it is a letter.
    fn visit(&mut self, i: u8) -> Result<Option<u16>, NoTree>
        requires { Next self.old i }
        ensures { Visited self.old i result self.new }
    {
        match self.layout.node(i).shape {
            Shape::Letter(code) => {
                self.letters += 1;
                self.bare = false;
                return Ok(Some(code));
            }
            Shape::Empty => {}
            Shape::Pair(first, second) => {
                self.pending.push(Pending::at_once(second));
                self.pending.push(Pending::at_once(first));
            }
            Shape::Or(left, right) => {
                let (turned, rest) = split_turn(self.turns)?;
                self.turns = rest;
                let side = if turned { right } else { left };
                self.pending.push(Pending::at_once(side));
            }
            Shape::Star(child) => {
                let (ends, rest) = split_turn(self.turns)?;
                self.turns = rest;
                if !ends {
                    self.pending.push(Pending {
                        node: i,
                        again: true,
                    });
                    self.pending.push(Pending::at_once(child));
                    self.bare = true;
                }
            }
        }
        Ok(None)
    }

    /// Goes on to the next letter, and gives its code; none at the end.
    pub(crate) fn next_code(&mut self) -> Result<Option<u16>, NoTree>
        ensures { Moved self.old result self.new }
    {
        while let Some(Pending { node, again }) = self.pending.pop() {
            if again && self.bare {
                return Err(NoTree);
            }
            if let Some(code) = self.visit(node)? {
                return Ok(Some(code));
            }
        }
        if self.turns.is_empty() {
            Ok(None)
        } else {
            Err(NoTree)
        }
    }
}
