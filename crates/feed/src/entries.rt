//! A list in a fixed array, as the tables of the layers hold one.
ghost use Rattle.std.specs.Prelude.{◌≡◌, ◌≤◌, ⊤};

use crate::tables::MOST;
use std::alloc::AllocError;

/// The entries of a table, the first `count` of `items`.
// Kept: an array with its count, since a table is copied and takes no heap; an `ArrayVec` is not `Copy`.
#[derive(Copy)]
pub(crate) struct Entries<T> {
    pub(crate) items: [T; MOST],
    pub(crate) count: usize,
    ghost room: { count ≤ 32 },
}

// Kept: a copy by hand, since no derive of `Clone` is made for a struct with a ghost field.
impl<T: Copy> Clone for Entries<T> {
    ghost is_clone = { λ e copy. copy ≡ e };

    ghost is_infallible = { λ _. ⊤ };

    fn clone(&self) -> Result<Self, AllocError> {
        Ok(*self)
    }
}
