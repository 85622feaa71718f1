//! The turns from one letter to the next.
ghost use Rattle.std.specs.Prelude.{◌+◌, ◌<◌, ◌≤◌, [], ◌∷◌, length};
ghost use Rattle.expression.specs.Layouts.{nodes_of};
ghost use Rattle.expression.specs.Places.{continuation, letter_count};
ghost use Rattle.matching.specs.Holding.{held, whole};
ghost use Rattle.matching.specs.Legs.{Gone, after_in, leg, route_in};
ghost use Rattle.matching.specs.Passes.{usable};

use crate::entered::{Entered, read};
use crate::turns::Turns;
use expression::node::Shape;

// Kept: a part that carries its layout would need a clause in each of these that it is the same layout, in place of the bound on its number.
impl Entered<'_> {
    /// Writes the turns of the way from node `i` to its first letter that may come next, and answers the letter's place.
    fn enter(&self, i: u8, turns: &mut Turns<'_>) -> Option<u8>
        requires { i < length (nodes_of self.now.layout.now) }
        ensures { Gone (route_in self.now.code (usable self.now.next.now) (held self.now.layout.now i)) result turns.old turns.new }
    {
        let here = read(self.layout, i);
        match here.shape {
            Shape::Letter(_) => Some(here.letters),
            Shape::Empty => None,
            Shape::Pair(first, second) => {
                if self.enterable[usize::from(first)] {
                    self.enter(first, turns)
                } else {
                    turns.put_empty_tree(self.layout, first);
                    self.enter(second, turns)
                }
            }
            Shape::Or(first, second) => {
                if self.enterable[usize::from(first)] {
                    turns.put(0);
                    self.enter(first, turns)
                } else {
                    turns.put(1);
                    self.enter(second, turns)
                }
            }
            Shape::Star(child) => {
                turns.put(0);
                self.enter(child, turns)
            }
        }
    }

    /// Enters node `i`, if it may be entered, and passes over it if not.
    fn pass(&self, i: u8, turns: &mut Turns<'_>) -> Option<u8>
        requires { i < length (nodes_of self.now.layout.now) }
        ensures { Gone (leg self.now.code (usable self.now.next.now) (held self.now.layout.now i ∷ [])) result turns.old turns.new }
    {
        if self.enterable[usize::from(i)] {
            self.enter(i, turns)
        } else {
            turns.put_empty_tree(self.layout, i);
            None
        }
    }

    /// Writes the turns of the way from place `p` through the rest of node `i`, and answers the place of the letter that it leads to, if it does.
    fn leave(&self, p: u8, i: u8, turns: &mut Turns<'_>) -> Option<u8>
        requires inside { i < length (nodes_of self.now.layout.now) }
        requires after { (held self.now.layout.now i).before < p }
        requires within { p ≤ (held self.now.layout.now i).before + letter_count (held self.now.layout.now i).expr }
        ensures { Gone (leg self.now.code (usable self.now.next.now) (after_in (held self.now.layout.now i) p)) result turns.old turns.new }
    {
        match read(self.layout, i).shape {
            Shape::Letter(_) | Shape::Empty => None,
            Shape::Pair(first, second) => {
                if p <= read(self.layout, first).letters {
                    // Kept: what `or_else` makes of turns that its closure captures has no name that a proof can use, so the proof didn't close.
                    match self.leave(p, first, turns) {
                        Some(place) => Some(place),
                        None => self.pass(second, turns),
                    }
                } else {
                    self.leave(p, second, turns)
                }
            }
            Shape::Or(first, second) => {
                if p <= read(self.layout, first).letters {
                    self.leave(p, first, turns)
                } else {
                    self.leave(p, second, turns)
                }
            }
            // Kept: as for a pair, the proof with `or_else` didn't close.
            Shape::Star(child) => match self.leave(p, child, turns) {
                Some(place) => Some(place),
                None => self.pass(i, turns),
            },
        }
    }

    /// Writes the turns of the way from place `p` to the next letter, and answers its place, or to the end if none may come next.
    pub(crate) fn step(&self, p: u8, turns: &mut Turns<'_>) -> Option<u8>
        requires { p ≤ letter_count (whole self.now.layout.now) }
        ensures { Gone (leg self.now.code (usable self.now.next.now) (continuation (whole self.now.layout.now) p)) result turns.old turns.new }
    {
        if p == 0 {
            self.pass(self.root(), turns)
        } else {
            self.leave(p, self.root(), turns)
        }
    }
}
