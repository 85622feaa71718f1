//! The turns of the first tree, letter by letter.
ghost use Rattle.std.specs.Prelude.{◌≡◌, ◌≤◌, true, map, length};
ghost use Rattle.expression.specs.Places.{continuation, finishes, letter_count};
ghost use Rattle.matching.specs.Holding.{whole};
ghost use Rattle.matching.specs.Legs.{Gone, leg};
ghost use Rattle.matching.specs.Outcomes.{longest};
ghost use Rattle.matching.specs.Passes.{usable};
ghost use Rattle.matching.specs.Walked.{Tabled, Walked};

use crate::entered::{Entered, note_entries};
use crate::rows::row_width;
use crate::turns::Turns;
use alphabet::kind::Kind;
use expression::layout::Layout;

/// Writes the turns of the way from a place to a letter with this code, where `row` tells which places can finish the letters after it, and answers the letter's place.
// Kept: a function of its own, since a set of nodes that the walk held would be cleared for a word without letters too.
fn next_place(
    layout: &Layout,
    code: u16,
    row: &[u8],
    place: u8,
    turns: &mut Turns<'_>,
) -> Option<u8>
    requires { place ≤ letter_count (whole layout.now) }
    ensures { Gone (leg code (usable row.now) (continuation (whole layout.now) place)) result turns.old turns.new }
{
    let mut enterable = [false; 256];
    note_entries(layout, code, row, &mut enterable);
    Entered::new(layout, code, row, &enterable).step(place, turns)
}

/// Writes the turns of the first tree of `letters`, whose work is done, as far as there is room, and counts them.
pub(crate) fn walk<K: Kind>(
    layout: &Layout,
    letters: &[K::Letter],
    work: &[u8],
    turns: &mut [u8],
) -> usize
    requires short { length letters.now ≤ longest }
    requires table { Tabled (whole layout.now) (map K.Kind.coded letters.now) work.now }
    requires alive { finishes (whole layout.now) (map K.Kind.coded letters.now) 0 ≡ true }
    ensures { Walked (whole layout.now) (map K.Kind.coded letters.now) result turns.old turns.new }
{
    let width = row_width(layout);
    let mut turns = Turns {
        buffer: turns,
        count: 0,
    };
    let mut place = 0;
    for (letter, row) in letters.iter().zip(work[width..].chunks(width)) {
        place = next_place(layout, K::code(*letter), row, place, &mut turns).unwrap();
    }
    Entered::nowhere(layout).step(place, &mut turns);
    turns.count
}
