//! What can be wrong with a line. Places count bytes from 1.
ghost use Rattle.std.specs.Prelude.{◌≡◌};
ghost use Rattle.script.specs.Faults.{form_figures, wrapped, no_memory};

use figures::Figures;
use std::alloc::AllocFailed;

/// What is wrong with a token.
#[derive(Clone, Copy, PartialEq, Eq, Debug)]
pub enum TokenFault {
    /// A byte that no token has.
    BadByte(usize),
    /// A number over 65,535 where a number can stand.
    TooLarge(usize),
}

/// What is wrong with a form.
#[derive(Clone, Copy, PartialEq, Eq, Debug)]
pub enum FormFault {
    Token(TokenFault),
    /// A token with which no form can go on, or the bracket that closes a mark that names no letter.
    Misfit(usize),
    /// The bracket of the 256th node.
    TooManyNodes(usize),
    NoMemory,
}

impl FormFault {
    // Kept: a method, since a From takes the fault alone, and its line's number comes from beside it.
    /// The number and the two values that are printed: what is wrong, the line, and the byte from 1 at which it is wrong.
    pub fn figures(self, line: usize) -> Figures
        ensures { result ≡ form_figures self line }
    {
        match self {
            FormFault::Token(TokenFault::BadByte(place)) => Figures::new(51, line, place),
            FormFault::Misfit(place) => Figures::new(52, line, place),
            FormFault::Token(TokenFault::TooLarge(place)) | FormFault::TooManyNodes(place) => {
                Figures::new(53, line, place)
            }
            FormFault::NoMemory => Figures::new(1, 0, 0),
        }
    }
}

impl From<TokenFault> for FormFault {
    ghost from_gives = { λ f r. r ≡ wrapped f };

    fn from(f: TokenFault) -> FormFault {
        FormFault::Token(f)
    }
}

impl<T: Drop> From<AllocFailed<T>> for FormFault {
    ghost from_gives = { λ _ r. r ≡ no_memory };

    fn from(_refused: AllocFailed<T>) -> FormFault {
        Self::NoMemory
    }
}
