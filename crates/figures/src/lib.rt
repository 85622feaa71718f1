//! What a refusal is told by: its number and two values.
#![tactic(auto)]

ghost use Rattle.std.specs.Prelude.{◌≡◌, Some};
ghost use Rattle.figures.specs.Text.{figures_text};

use std::fmt;

/// The number of a refusal, and its two values; a value that says nothing is 0.
#[derive(Clone, Copy, PartialEq, Eq, Debug)]
pub struct Figures {
    pub number: u16,
    pub first: usize,
    pub second: usize,
}

impl Figures {
    /// The figures of a refusal with this number and these two values.
    pub fn new(number: u16, first: usize, second: usize) -> Figures
        ensures { result ≡ record { number = number; first = first; second = second } }
    {
        Figures {
            number,
            first,
            second,
        }
    }
}

/// The figures as they are printed, as in `(refused 41 2 0)`.
impl fmt::Display for Figures {
    ghost output = { λ f. Some (figures_text f) };

    fn fmt<W: fmt::Write>(&self, f: &mut fmt::Formatter<W>) -> fmt::Result {
        write!(
            f,
            "(refused {} {} {})",
            self.number, self.first, self.second
        )
    }
}
