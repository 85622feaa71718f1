//! What one line of a meter file says.
ghost use Rattle.std.specs.Prelude.{◌≡◌, ◌<◌, IfOk, IfSome};
ghost use Rattle.feed.specs.Line.{digit, line_fault, mark_of, number_digit, reading, stamp_of, time_class, two_digits};

use crate::fault::Fault;
use alphabet::mark::{Mark, Stamp};

/// What is wrong with a line: no digit at this byte, from 1, of the record number, no bar after it, or no stamp.
#[derive(Clone, Copy, Debug, PartialEq, Eq)]
pub(crate) enum LineFault {
    NoDigit(usize),
    NoBar,
    NoStamp,
}

impl LineFault {
    /// The fault of a feed, for the line with this number.
    // Kept: no `From`, which takes the fault alone; the line's number comes from the feed.
    pub(crate) fn on(self, line: usize) -> Fault
        ensures { result ≡ line_fault line self }
    {
        let (number, byte) = match self {
            LineFault::NoDigit(byte) => (21, byte),
            LineFault::NoBar => (22, 4),
            LineFault::NoStamp => (23, 5),
        };
        Fault {
            number,
            first: line,
            second: byte,
        }
    }
}

/// The digit that a byte is, or none.
fn digit(byte: u8) -> Option<u8>
    ensures value { result ≡ digit byte }
    ensures low { IfSome result (λ d. d < 10) }
{
    byte.is_ascii_digit().then(|| byte - b'0')
}

/// The number of two digits, or none where one is missing.
fn two(tens: u8, ones: u8) -> Option<u8>
    ensures { result ≡ two_digits tens ones }
{
    Some(10 * digit(tens)? + digit(ones)?)
}

/// The class of a time of day, if it is one.
fn time_class(hour: u8, minute: u8) -> Option<Stamp>
    ensures { result ≡ time_class hour minute }
{
    match (hour, minute) {
        (0 | 24, 0) => Some(Stamp::Midnight),
        (0..=23, 0..=59) => Some(Stamp::WithinDay),
        _ => None,
    }
}

/// The stamp after the bar, of which this is the rest of the line.
fn stamp(rest: &[u8]) -> Option<Stamp>
    ensures { result ≡ stamp_of rest.now }
{
    match rest {
        [] | [b'|', ..] => Some(Stamp::Absent),
        [a, b, b':', c, d] | [a, b, b':', c, d, b'|', ..] => {
            time_class(two(*a, *b)?, two(*c, *d)?)
        }
        _ => None,
    }
}

/// The digit at byte `i` of a record number.
fn number_digit(line: &[u8], i: usize) -> Result<u16, LineFault>
    requires { i < 3 }
    ensures value { result ≡ number_digit line.now i }
    ensures low { IfOk result (λ d. d < 10) }
{
    line.get(i)
        .and_then(|byte| digit(*byte))
        .map(u16::from)
        .ok_or(LineFault::NoDigit(i + 1))
}

/// The mark of a record number and a stamp.
fn marked(number: u16, stamp: Stamp) -> Mark
    requires { number < 1000 }
    ensures { result ≡ mark_of number stamp }
{
    Mark::stamped(number, stamp).unwrap()
}

/// The mark that a line says, or what is wrong with it first.
pub(crate) fn read_line(line: &[u8]) -> Result<Mark, LineFault>
    ensures { result ≡ reading line.now }
{
    let number = 100 * number_digit(line, 0)?
        + 10 * number_digit(line, 1)?
        + number_digit(line, 2)?;
    let [_, _, _, b'|', rest @ ..] = line else {
        return Err(LineFault::NoBar);
    };
    let stamp = stamp(rest).ok_or(LineFault::NoStamp)?;
    Ok(marked(number, stamp))
}
