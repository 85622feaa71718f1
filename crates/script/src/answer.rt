//! What a line of a script is answered with, and how the answer is written.
ghost use Rattle.std.specs.Prelude.{◌≡◌, Some};
ghost use Rattle.script.specs.Answers.{answer_words, line_figures, faulted_form, faulted_call, out_of_memory};

use crate::fault::FormFault;
use figures::Figures;
use register::refusal::Refusal;
use std::fmt;

/// What an accepted line did.
#[derive(Clone, Copy, PartialEq, Eq, Debug)]
pub enum Answer {
    /// A layout was lodged under this number.
    Lodged(usize),
}

/// The answer as it is printed, as in `(lodged 3)`.
impl fmt::Display for Answer {
    ghost output = { λ a. Some (answer_words a) };

    fn fmt<W: fmt::Write>(&self, f: &mut fmt::Formatter<W>) -> fmt::Result {
        match *self {
            Answer::Lodged(number) => write!(f, "(lodged {number})"),
        }
    }
}

/// Why a line is refused: it holds no form, or the register refused the form's call.
#[derive(Clone, Copy, PartialEq, Eq, Debug)]
pub enum LineFault {
    Form(FormFault),
    Call(Refusal),
    /// The script has more than 16,384 bytes.
    TooLong,
}

impl LineFault {
    // Kept: a method, as that of a form's fault; a script that is too long has no line, and its figures tell none.
    /// The number and the two values that are printed, where the fault is in the line with this number.
    pub fn figures(self, line: usize) -> Figures
        ensures { result ≡ line_figures self line }
    {
        match self {
            LineFault::Form(fault) => fault.figures(line),
            LineFault::Call(refusal) => refusal.into(),
            LineFault::TooLong => Figures::new(54, 0, 0),
        }
    }

    /// Whether memory ran out.
    pub(crate) fn is_memory(self) -> bool
        ensures { result ≡ out_of_memory self }
    {
        matches!(
            self,
            LineFault::Form(FormFault::NoMemory) | LineFault::Call(Refusal::NoMemory)
        )
    }
}

impl From<FormFault> for LineFault {
    ghost from_gives = { λ f r. r ≡ faulted_form f };

    fn from(form: FormFault) -> LineFault {
        LineFault::Form(form)
    }
}

impl From<Refusal> for LineFault {
    ghost from_gives = { λ e r. r ≡ faulted_call e };

    fn from(call: Refusal) -> LineFault {
        LineFault::Call(call)
    }
}
