//! The work of a whole word.
ghost use Rattle.std.specs.Prelude.{◌≡◌, ◌+◌, ◌*◌, ◌≤◌, map, length};
ghost use Rattle.expression.specs.Places.{letter_count};
ghost use Rattle.matching.specs.Holding.{whole};
ghost use Rattle.matching.specs.Outcomes.{longest};
ghost use Rattle.matching.specs.Rows.{rows};
ghost use Rattle.matching.specs.Written.{written};

use crate::rows::{end_row, next_row, row_width};
use alphabet::kind::Kind;
use expression::layout::Layout;

/// Fills the work of `letters`, row by row from their end.
// Kept: the clause `short` stands in three contracts; a struct that holds it would need its layout and letters unpacked in each of their clauses.
pub(crate) fn fill<K: Kind>(layout: &Layout, letters: &[K::Letter], work: &mut [u8])
    requires short { length letters.now ≤ longest }
    requires room { (length letters.now + 1) * (letter_count (whole layout.now) + 1) ≤ length work.old }
    ensures { work.new ≡ written (rows (whole layout.now) (map K.Kind.coded letters.now)) work.old }
{
    let width = row_width(layout);
    end_row(layout, &mut work[letters.len() * width..]);
    // Kept: each row is written before the one that it reads, both in one buffer, and the parts that `chunks_mut` lends cannot read each other.
    for (t, letter) in letters.iter().enumerate().rev() {
        next_row(layout, K::code(*letter), &mut work[t * width..]);
    }
}
