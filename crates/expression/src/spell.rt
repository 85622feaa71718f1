//! What trees spell that are handed over as their turns.
ghost use Rattle.std.specs.Prelude.{◌≡◌, length};
ghost use Rattle.std.specs.Option.{option_map};
ghost use Rattle.expression.specs.Layouts.{expression_of};
ghost use Rattle.expression.specs.Passing.{Counted, Spelled};
ghost use Rattle.expression.specs.Spelling.{codes, Few, spelt, spelt_into, word};

use crate::buffer::put;
use crate::layout::Layout;
use crate::spell_fault::SpellFault;
use crate::walk::{NoTree, Walk};
use alphabet::kind::Kind;

/// How many codes the tree with these turns spells.
fn count_codes(layout: &Layout, turns: &[u8]) -> Result<u128, NoTree>
    ensures { Counted (codes (expression_of layout.now) turns.now) (length turns.now) result }
{
    let mut walk = Walk::new(layout, turns);
    // Kept: the walk may fail at each step, so it is no iterator whose codes `count` could count.
    while walk.next_code()?.is_some() {}
    Ok(walk.letters)
}

/// Writes the letters of the tree with these turns as far as there is room, and counts them.
fn put_letters<K: Kind>(
    layout: &Layout,
    turns: &[u8],
    letters: &mut [K::Letter],
) -> Result<u128, NoTree>
    ensures { Spelled (word K.Kind.lettered (expression_of layout.now) turns.now) result letters.old letters.new }
{
    let mut walk = Walk::new(layout, turns);
    let mut count = 0;
    while let Some(code) = walk.next_code()? {
        if let Some(letter) = K::letter(code) {
            // Kept: no buffer is as long as `usize::MAX`, so a letter past that is only counted.
            let at = usize::try_from(count).unwrap_or(usize::MAX);
            put(letters, at, letter);
            // Kept: not each code is a letter of the kind, and the walk may fail, so no iterator counts the letters.
            count += 1;
        }
    }
    Ok(count)
}

impl Layout {
    /// How many letters the tree with these turns spells, or none where the layout's expression has no such tree.
    pub fn measure(&self, turns: &[u8]) -> Option<u128>
        ensures count { result ≡ option_map length (codes (expression_of self.now) turns.now) }
        ensures few { Few result (length turns.now) }
    {
        count_codes(self, turns).ok()
    }

    /// Writes the letters of the tree with these turns at the start of `letters`, and counts them.
    pub fn spell<K: Kind>(
        &self,
        turns: &[u8],
        letters: &mut [K::Letter],
    ) -> Result<usize, SpellFault>
        ensures answer { result ≡ spelt (word K.Kind.lettered (expression_of self.now) turns.now) (length letters.old) }
        ensures buffer { letters.new ≡ spelt_into (word K.Kind.lettered (expression_of self.now) turns.now) letters.old }
    {
        // With no room the letters are only counted.
        let count = put_letters::<K>(self, turns, &mut [])?;
        if count > letters.len() as u128 {
            return Err(SpellFault::TooShort(count));
        }
        put_letters::<K>(self, turns, letters)?;
        Ok(count as usize)
    }
}
