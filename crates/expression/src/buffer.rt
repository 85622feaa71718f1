//! Writing into a lent buffer.
ghost use Rattle.std.specs.Prelude.{◌≡◌, slice_set};

/// Writes `value` at `at`, if there is room.
pub(crate) fn put<T: Copy + Drop>(buffer: &mut [T], at: usize, value: T)
    ensures { buffer.new ≡ slice_set buffer.old at value }
{
    // Kept: the contract of a slice's `get_mut` says nothing of what the slice ends as, so a proof with it cannot close.
    if at < buffer.len() {
        buffer[at] = value;
    }
}
