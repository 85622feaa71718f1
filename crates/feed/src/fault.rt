//! What can be wrong with letters, or with a table of a layer.

/// Something wrong: its number, and two places that say where.
// Kept: the subject gives each feed's fault a number and two places, and a feed of another make a number of its own, whichever it is; this is a `u8` and that of `Figures` a `u16`, so one type for both would promise less.
#[derive(Clone, Copy, Debug, PartialEq, Eq)]
pub struct Fault {
    pub number: u8,
    pub first: usize,
    pub second: usize,
}
