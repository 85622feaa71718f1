//! The texts that a line can stand in, and parts of them.

/// Which text a line stands in.
#[derive(Clone, Copy, PartialEq, Eq, Debug)]
pub enum Source {
    Script,
    File,
}

/// A line of a text, with its place: which text, and the line's number from 1.
#[derive(Clone, Copy, PartialEq, Eq, Debug)]
pub struct Excerpt<'a> {
    pub source: Source,
    pub line: usize,
    pub bytes: &'a [u8],
}
