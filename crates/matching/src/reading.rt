//! Reading letters under a layout.
ghost use Rattle.std.specs.Prelude.{◌≡◌, ◌≤◌, map, length, Option};
ghost use Rattle.expression.specs.Layouts.{expression_of};
ghost use Rattle.expression.specs.Trees.{Tree};
ghost use Rattle.matching.specs.Holding.{whole};
ghost use Rattle.matching.specs.Outcomes.{IsOutcome, Reading, longest, told};
ghost use Rattle.matching.specs.Walked.{Tabled};

use crate::entered::can_finish;
use crate::fault::MatchFault;
use crate::fill::fill;
use crate::rows::row_width;
use crate::walk::walk;
use alphabet::kind::Kind;
use expression::layout::Layout;

/// The most letters that are read: with more, work bytes and turns might be too many to count.
pub const LONGEST: usize = 1_099_511_627_776;

/// Writes the turns of the first tree of `letters`, whose work is done.
fn tell<K: Kind>(
    layout: &Layout,
    letters: &[K::Letter],
    work: &[u8],
    turns: &mut [u8],
) -> Result<usize, MatchFault>
    requires short { length letters.now ≤ longest }
    requires table { Tabled (whole layout.now) (map K.Kind.coded letters.now) work.now }
    ensures { (o : Option Tree) → Reading (whole layout.now) (map K.Kind.coded letters.now) o → record { answer = result; work = work.now; turned = turns.new } ≡ told (map K.Kind.coded letters.now) o work.now turns.old }
{
    if !can_finish(work, 0) {
        return Err(MatchFault::NoWord(letters.len()));
    }
    let count = walk::<K>(layout, letters, work, &mut []);
    if turns.len() < count {
        return Err(MatchFault::ShortTurns(count));
    }
    Ok(walk::<K>(layout, letters, work, turns))
}

/// Reads `letters` under `layout`, as `first_tree` does.
fn read_word<K: Kind>(
    layout: &Layout,
    letters: &[K::Letter],
    work: &mut [u8],
    turns: &mut [u8],
) -> Result<usize, MatchFault>
    ensures { IsOutcome (expression_of layout.now) (map K.Kind.coded letters.now) work.old turns.old (record { answer = result; work = work.new; turned = turns.new }) }
{
    if letters.len() > LONGEST {
        return Err(MatchFault::TooLong);
    }
    let size = (letters.len() + 1) * row_width(layout);
    if work.len() < size {
        return Err(MatchFault::ShortWork(size));
    }
    fill::<K>(layout, letters, work);
    tell::<K>(layout, letters, work, turns)
}

/// Reads `letters` under `layout`: fills `work`, writes the turns of the first tree to the start of `turns`, and answers their number.
// Kept: a call of a proved function alone, so that what goes wrong here is refused by this contract itself, with no file of proofs between.
pub fn first_tree<K: Kind>(
    layout: &Layout,
    letters: &[K::Letter],
    work: &mut [u8],
    turns: &mut [u8],
) -> Result<usize, MatchFault>
    ensures { IsOutcome (expression_of layout.now) (map K.Kind.coded letters.now) work.old turns.old (record { answer = result; work = work.new; turned = turns.new }) }
{
    read_word::<K>(layout, letters, work, turns)
}
