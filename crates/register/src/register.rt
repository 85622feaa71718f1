//! A register and what it holds.
ghost use Rattle.std.specs.Prelude.{◌≤◌, vec_len};

use expression::layout::Layout;
use std::alloc::Global;
use std::marker::PhantomData;

/// Layouts of the letter kind `K`, each under the number of those lodged before it.
#[derive(Drop)]
pub struct Register<K> {
    pub(crate) heap: Global,
    pub(crate) layouts: Vec<Layout>,
    pub(crate) kind: PhantomData<K>,
    ghost few: { vec_len layouts ≤ 16 },
}
