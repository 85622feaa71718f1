//! Why rows, or a word, are refused.

/// Why a list of rows is refused.
#[derive(Clone, Copy, PartialEq, Eq, Debug)]
pub enum RowsFault {
    /// The list is ill formed: the lowest index of a number that is not in order, or the end.
    IllFormed(usize),
    /// The first row is not the place 0 with the set of 0 alone.
    Start,
    /// The place of the row with this number may end, and none of its set may.
    End(usize),
    /// No row serves the second, a follower of the place of the row with the first number.
    Follower(usize, usize),
}

/// Why a word is refused.
#[derive(Clone, Copy, PartialEq, Eq, Debug)]
pub enum WordFault {
    /// It is no word of the earlier layout.
    NotEarlier,
    /// It is also a word of the later layout.
    AlsoLater,
}
