//! The dialects of a script: one for each letter kind, told to the reader by a plain number.
use alphabet::bytes::Bytes;
use alphabet::kind::Kind;
use alphabet::marks::Marks;

// Kept: plain numbers, since a rule of the project has code that recurses told the letter kind by one.
/// The dialect of marks, `(m NUMBER CLASS)`.
pub const MARKS: u8 = 0;

/// The dialect of bytes, `(b VALUE)`. Any other number counts as bytes too.
pub const BYTES: u8 = 1;

/// A letter kind that a script can be written in.
pub trait Dialect: Kind {
    ghost use Rattle.std.specs.Prelude.{ℕ};

    /// The number that tells the dialect.
    ghost NUMBER: { ℕ };

    const NUMBER: u8;
}

impl Dialect for Marks {
    ghost NUMBER = { 0 };

    const NUMBER: u8 = MARKS;
}

impl Dialect for Bytes {
    ghost NUMBER = { 1 };

    const NUMBER: u8 = BYTES;
}
