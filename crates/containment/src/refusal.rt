//! The figures of each refusal.
ghost use Rattle.std.specs.Prelude.{◌≡◌};
ghost use Rattle.containment.specs.Refusals.{rows_refusal, word_refusal};

use crate::fault::{RowsFault, WordFault};
use figures::Figures;

impl From<RowsFault> for Figures {
    ghost from_gives = { λ fault r. r ≡ rows_refusal fault };

    /// The number of the refusal and its two values.
    fn from(fault: RowsFault) -> Figures {
        match fault {
            RowsFault::IllFormed(index) => Figures::new(31, index, 0),
            RowsFault::Start => Figures::new(32, 0, 0),
            RowsFault::End(row) => Figures::new(33, row, 0),
            RowsFault::Follower(row, f) => Figures::new(34, row, f),
        }
    }
}

impl From<WordFault> for Figures {
    ghost from_gives = { λ fault r. r ≡ word_refusal fault };

    /// The number of the refusal and its two values, which are 0.
    fn from(fault: WordFault) -> Figures {
        match fault {
            WordFault::NotEarlier => Figures::new(36, 0, 0),
            WordFault::AlsoLater => Figures::new(37, 0, 0),
        }
    }
}
