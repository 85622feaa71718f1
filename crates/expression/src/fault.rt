//! Why a table is no layout.
ghost use Rattle.std.specs.Prelude.{◌≡◌};
ghost use Rattle.expression.specs.declared.fault.TableFault.TheVariants.{NoMemory};

use std::alloc::AllocFailed;

#[derive(Clone, Copy, PartialEq, Eq, Debug)]
pub enum TableFault {
    /// The table has no nodes.
    Empty,
    /// The table has more than 255 nodes.
    TooLong,
    /// The lowest node that breaks, by its number.
    Breaks(usize),
    /// The last node's part is not the whole table, which has this many nodes.
    Unfinished(usize),
    NoMemory,
}

impl<T: Drop> From<AllocFailed<T>> for TableFault {
    ghost from_gives = { λ _ r. r ≡ NoMemory };

    fn from(_refused: AllocFailed<T>) -> TableFault {
        TableFault::NoMemory
    }
}
