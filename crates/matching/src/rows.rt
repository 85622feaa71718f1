//! The work of a reading, row by row: which places can finish which letters.
ghost use Rattle.std.specs.Prelude.{◌≡◌, ℕ, suc, ◌+◌, ◌<◌, ◌≤◌, List, [], ◌∷◌, drop, length};
ghost use Rattle.expression.specs.Layouts.{nodes_of};
ghost use Rattle.expression.specs.Places.{letter_count};
ghost use Rattle.expression.specs.Spelling.{written as laid};
ghost use Rattle.matching.specs.Holding.{held, whole};
ghost use Rattle.matching.specs.Passes.{RowAt, afters, bits, bits_in, reaches, usable};
ghost use Rattle.matching.specs.Rows.{row};
ghost use Rattle.matching.specs.Written.{written};

use crate::entered::{Entered, note_entries, read};
use expression::layout::Layout;
use expression::node::Shape;

// Kept: a part that carries its layout would need a clause in each of these that it is the same layout, in place of the bound on its number.
impl Entered<'_> {
    /// May node `i` be entered, or be passed over where `on` tells of what comes after it?
    fn onward(&self, i: u8, on: bool) -> bool
        requires { i < length (nodes_of self.now.layout.now) }
        ensures { result ≡ reaches self.now.code (usable self.now.next.now) (held self.now.layout.now i ∷ []) on }
    {
        self.enterable[usize::from(i)] || (read(self.layout, i).admits && on)
    }

    /// Writes the bytes of the places in node `i` into a row, where `on` tells of what comes after the node.
    fn spread(&self, i: u8, on: bool, bytes: &mut [u8])
        requires inside { i < length (nodes_of self.now.layout.now) }
        requires room { (held self.now.layout.now i).before + letter_count (held self.now.layout.now i).expr < length bytes.old }
        ensures { bytes.new ≡ laid (bits_in self.now.code (usable self.now.next.now) on (held self.now.layout.now i)) (suc (held self.now.layout.now i).before) bytes.old }
    {
        let here = read(self.layout, i);
        match here.shape {
            Shape::Letter(_) => bytes[usize::from(here.letters)] = u8::from(on),
            Shape::Empty => {}
            Shape::Pair(first, second) => {
                let after = self.onward(second, on);
                self.spread(first, after, bytes);
                self.spread(second, on, bytes);
            }
            Shape::Or(first, second) => {
                self.spread(first, on, bytes);
                self.spread(second, on, bytes);
            }
            Shape::Star(child) => {
                let again = self.onward(i, on);
                self.spread(child, again, bytes);
            }
        }
    }

    /// Writes a row, where `end` tells whether no letter is left.
    fn fill_row(&self, end: bool, bytes: &mut [u8])
        requires { letter_count (whole self.now.layout.now) < length bytes.old }
        ensures { bytes.new ≡ laid (bits self.now.code (usable self.now.next.now) end (afters (whole self.now.layout.now))) 0 bytes.old }
    {
        let root = self.root();
        let start = self.onward(root, end);
        bytes[0] = u8::from(start);
        self.spread(root, end, bytes);
    }
}

/// The number of bytes of a row: one for each place, and place 0.
#[tactic(auto, using(crate::proofs::Holding::places_are))]
pub(crate) fn row_width(layout: &Layout) -> usize
    ensures is { result ≡ letter_count (whole layout.now) + 1 }
    ensures low { result ≤ 256 }
{
    usize::from(layout.places()) + 1
}

// Kept: that a row has room stands in three contracts; a struct of a layout and a row would be unpacked in each of their clauses.
/// Writes the row of no letters to the start of `bytes`.
pub(crate) fn end_row(layout: &Layout, bytes: &mut [u8])
    requires { letter_count (whole layout.now) < length bytes.old }
    ensures { bytes.new ≡ written (row (whole layout.now) []) bytes.old }
{
    Entered::nowhere(layout).fill_row(true, bytes);
}

/// Writes the row of a letter and the letters after it to the start of `bytes`, where the row of those follows.
pub(crate) fn next_row(layout: &Layout, code: u16, bytes: &mut [u8])
    requires { letter_count (whole layout.now) < length bytes.old }
    ensures { (w : List ℕ) → RowAt (whole layout.now) w (drop (letter_count (whole layout.now) + 1) bytes.old) → bytes.new ≡ written (row (whole layout.now) (code ∷ w)) bytes.old }
{
    let (row, next) = bytes.split_at_mut(row_width(layout));
    let mut enterable = [false; 256];
    note_entries(layout, code, next, &mut enterable);
    Entered::new(layout, code, next, &enterable).fill_row(false, row);
}
