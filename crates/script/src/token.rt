//! What a line is cut into.

/// The sort of a token. A name is a run of letters; the line's end is a token too.
#[derive(Clone, Copy, PartialEq, Eq, Debug)]
pub(crate) enum Sort {
    Open,
    Close,
    Dash,
    Name,
    Digits,
    End,
}

/// A token: its sort, the place of its first byte from 1, and its bytes.
#[derive(Clone, Copy)]
pub(crate) struct Token<'a> {
    pub(crate) sort: Sort,
    pub(crate) place: usize,
    pub(crate) text: &'a [u8],
}

/// The bytes that go on in one token.
#[derive(Clone, Copy, PartialEq, Eq, Debug)]
pub(crate) enum Run {
    Letters,
    Digits,
}
