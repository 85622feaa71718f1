//! Why letters are not read.

#[derive(Clone, Copy, PartialEq, Eq, Debug)]
pub enum MatchFault {
    /// There are more letters than can be read: over 2^40.
    TooLong,
    /// The work buffer is too short: reading takes this many bytes.
    ShortWork(usize),
    /// The letters, of which there are this many, are no word of the layout.
    NoWord(usize),
    /// The turns buffer is too short: the first tree has this many turns.
    ShortTurns(usize),
}
