//! What comes after a set of places.
use crate::sets::Set;

/// What comes after a set of places: may a word end at one of them, and which places follow one of them?
#[derive(Drop)]
pub(crate) struct After {
    pub(crate) ends: bool,
    pub(crate) follow: Set,
}
