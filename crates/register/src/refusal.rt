//! Why a call is refused.
ghost use Rattle.std.specs.Prelude.{◌≡◌};
ghost use Rattle.register.specs.Refusals.{figures, no_memory, refused_table};

use expression::fault::TableFault;
use figures::Figures;
use std::alloc::AllocFailed;

/// The causes of refusals, each with what it tells.
#[derive(Clone, Copy, PartialEq, Eq, Debug)]
pub enum Refusal {
    /// The table is no layout: it is empty or too long, breaks at a node, or is unfinished.
    Table(TableFault),
    /// Sixteen layouts are lodged.
    Full,
    NoMemory,
}

/// A refusal by its number and two values, as it is printed.
impl From<Refusal> for Figures {
    ghost from_gives = { λ r f. f ≡ figures r };

    fn from(refusal: Refusal) -> Figures {
        let (number, first) = match refusal {
            Refusal::Table(TableFault::Empty) => (41, 0),
            Refusal::Table(TableFault::TooLong) => (41, 255),
            Refusal::Table(TableFault::Breaks(node)) => (41, node),
            Refusal::Table(TableFault::Unfinished(count)) => (41, count),
            Refusal::Full => (42, 0),
            Refusal::Table(TableFault::NoMemory) | Refusal::NoMemory => (1, 0),
        };
        Figures::new(number, first, 0)
    }
}

/// Want of memory is one refusal, wherever it came from.
impl From<TableFault> for Refusal {
    ghost from_gives = { λ f r. r ≡ refused_table f };

    fn from(fault: TableFault) -> Refusal {
        match fault {
            TableFault::NoMemory => Refusal::NoMemory,
            _ => Refusal::Table(fault),
        }
    }
}

impl<T: Drop> From<AllocFailed<T>> for Refusal {
    ghost from_gives = { λ _ r. r ≡ no_memory };

    fn from(_failed: AllocFailed<T>) -> Refusal {
        Self::NoMemory
    }
}
