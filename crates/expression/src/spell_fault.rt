//! Why turns are not spelled.
ghost use Rattle.std.specs.Prelude.{◌≡◌};
ghost use Rattle.expression.specs.declared.spell_fault.SpellFault.TheVariants as fault;

use crate::walk::NoTree;

#[derive(Clone, Copy, PartialEq, Eq, Debug)]
pub enum SpellFault {
    /// The turns are those of no tree.
    NoTree,
    /// The buffer is too short for the letters, which are this many.
    TooShort(u128),
}

impl From<NoTree> for SpellFault {
    ghost from_gives = { λ _ r. r ≡ fault.NoTree };

    fn from(_none: NoTree) -> SpellFault {
        SpellFault::NoTree
    }
}
