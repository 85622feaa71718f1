//! The tables of the layers, of at most 32 entries each.
use crate::entries::Entries;

/// How many entries a table has at most.
pub const MOST: usize = 32;

/// A rename: the code `target` in the place of the code `source`.
#[derive(Clone, Copy, Debug, PartialEq, Eq)]
pub struct Pair {
    pub source: u16,
    pub target: u16,
}

/// Checked renames.
#[derive(Clone, Copy)]
pub struct RenameTable {
    pub(crate) pairs: Entries<Pair>,
}

/// The codes to skip.
#[derive(Clone, Copy)]
pub struct SkipList {
    pub(crate) codes: Entries<u16>,
}

/// Why a table is refused: more than 32 entries, or an entry, from 0, that cannot stand.
#[derive(Clone, Copy, Debug, PartialEq, Eq)]
pub enum LayerFault {
    TooMany,
    Entry(usize),
}
