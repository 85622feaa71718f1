//! The judging of a word.
ghost use Rattle.std.specs.Prelude.{◌≡◌, ◌↔◌, map, Ok};
ghost use Rattle.expression.specs.Layouts.{expression_of};
ghost use Rattle.containment.specs.Reaching.{TellsWord};
ghost use Rattle.containment.specs.Refuting.{Refutes, WordJudged};

use crate::fault::WordFault;
use crate::places::Places;
use crate::sets;
use alphabet::kind::Kind;
use expression::layout::Layout;

/// Is this a word of the layout? The set holds the places that its letters so far may have come to.
fn is_word<K: Kind>(layout: &Layout, word: &[K::Letter]) -> bool
    ensures { TellsWord (expression_of layout.now) (map K.Kind.coded word.now) result }
{
    let places = Places::new(layout);
    let mut set = sets::of(&[0]);
    for letter in word {
        set = places.step(&set, K::code(*letter));
    }
    places.after(&set).ends
}

/// Judges a word: accepted if it is a word of the earlier layout and none of the later one.
pub fn refutes<K: Kind>(
    earlier: &Layout,
    later: &Layout,
    word: &[K::Letter],
) -> Result<(), WordFault>
    ensures judged { WordJudged (expression_of earlier.now) (expression_of later.now) (map K.Kind.coded word.now) result }
    ensures accepts { (result ≡ Ok tt) ↔ Refutes (expression_of earlier.now) (expression_of later.now) (map K.Kind.coded word.now) }
{
    if !is_word::<K>(earlier, word) {
        return Err(WordFault::NotEarlier);
    }
    if is_word::<K>(later, word) {
        return Err(WordFault::AlsoLater);
    }
    Ok(())
}
