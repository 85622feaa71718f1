//! Marks as letters, coded 4 × record number + class of stamp.
ghost use Rattle.std.specs.Prelude.{◌≡◌};
ghost use Rattle.alphabet.specs.Codes.{class_of, mark_code, mark_letter, mark_named, mark_stamped, stamp_read};
ghost use Rattle.alphabet.specs.MarkLaws;

use crate::kind::Kind;
use crate::mark::{Mark, Stamp, UnknownStamp};

#[derive(Clone, Copy)]
pub struct Marks;

impl TryFrom<u16> for Stamp {
    type Error = UnknownStamp;

    ghost try_from_gives = { λ c r. r ≡ stamp_read c };

    /// The stamp class with this number.
    fn try_from(class: u16) -> Result<Stamp, UnknownStamp> {
        match class {
            0 => Ok(Stamp::Absent),
            1 => Ok(Stamp::WithinDay),
            2 => Ok(Stamp::Midnight),
            _ => Err(UnknownStamp { class }),
        }
    }
}

impl From<Stamp> for u16 {
    ghost from_gives = { λ s c. c ≡ class_of s };

    /// The number of a stamp class.
    fn from(stamp: Stamp) -> u16 {
        stamp as u16
    }
}

impl Mark {
    /// The mark with a record number and the stamp class of a number, or none where either is out of range.
    pub fn new(number: u16, class: u16) -> Option<Mark>
        ensures { result ≡ mark_named number class }
    {
        Mark::stamped(number, Stamp::try_from(class).ok()?)
    }

    /// The mark with a record number and a stamp, or none where the number is out of range.
    pub fn stamped(number: u16, stamp: Stamp) -> Option<Mark>
        ensures { result ≡ mark_stamped number stamp }
    {
        if number >= 1000 {
            return None;
        }
        Some(Mark { number, stamp })
    }
}

impl Kind for Marks {
    type Letter = Mark;

    ghost ranged = { λ _. Unit {0} };

    ghost coded = { mark_code };

    ghost lettered = { mark_letter };

    ghost back = { λ l r. MarkLaws.back l };

    ghost only = { λ c l e. (tt, MarkLaws.only c l e) };

    fn code(l: Mark) -> u16 {
        4 * l.number + u16::from(l.stamp)
    }

    fn letter(code: u16) -> Option<Mark> {
        Mark::new(code / 4, code % 4)
    }
}
