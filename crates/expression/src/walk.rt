//! A walk along a layout, led by turns.
ghost use Rattle.std.specs.Prelude.{◌+◌, ◌*◌, ◌^◌, ◌<◌, length, reverse};
ghost use Rattle.expression.specs.Coming.{Fits, dues, weight};
ghost use Rattle.expression.specs.Layouts.{nodes_of};

use crate::layout::Layout;
use arrayvec::ArrayVec;

/// A node that a walk has still to visit.
#[derive(Clone, Copy, Default)]
pub(crate) struct Pending {
    /// The node's number.
    pub(crate) node: u8,
    /// Whether it is a list after one of its members, which must not be empty.
    pub(crate) again: bool,
}

/// What is still to come of a walk, and how far it has come.
#[derive(Drop)]
pub(crate) struct Walk<'a> {
    pub(crate) layout: &'a Layout,
    /// The turns to come.
    pub(crate) turns: &'a [u8],
    /// The nodes to come, the next one last.
    pub(crate) pending: ArrayVec<Pending, 255>,
    /// Whether no letter is passed since the last member of a list began.
    pub(crate) bare: bool,
    /// How many letters are passed.
    pub(crate) letters: u128,
    ghost fits: { ∥ Fits (nodes_of layout.now) (reverse pending.items) ∥₁ },
    ghost small: { letters + (255 * length turns.now + weight (dues (nodes_of layout.now) (reverse pending.items))) < 2 ^ 128 },
}

/// The turns are those of no tree.
#[derive(Clone, Copy)]
pub(crate) struct NoTree;
