//! Turns that are written into a lent buffer.
ghost use Rattle.std.specs.Prelude.{[], ◌∷◌};
ghost use Rattle.matching.specs.Holding.{held};
ghost use Rattle.matching.specs.Turned.{Put, blank};

use expression::layout::Layout;

/// A lent buffer, and how many turns were written into it from its start. Turns past its end are only counted.
#[derive(Drop)]
pub(crate) struct Turns<'a> {
    pub(crate) buffer: &'a mut [u8],
    pub(crate) count: usize,
}

impl Turns<'_> {
    /// Writes one turn.
    pub(crate) fn put(&mut self, turn: u8)
        ensures { Put (turn ∷ []) self.old self.new }
    {
        // Kept: the contract of a slice's `get_mut` says nothing of what the slice ends as, so a proof with it cannot close.
        if self.count < self.buffer.len() {
            self.buffer[self.count] = turn;
        }
        self.count = self.count.saturating_add(1);
    }

    /// Writes the turns of the first tree without letters of a node, if it has one.
    #[tactic(auto, using(crate::proofs::Turned::counted_all), unfolding(crate::specs::Holding::held))]
    pub(crate) fn put_empty_tree(&mut self, layout: &Layout, node: u8)
        ensures { Put (blank (held layout.now node).expr) self.old self.new }
    {
        let count = layout.put_empty_tree(node, self.buffer, self.count);
        self.count = self.count.saturating_add(usize::from(count.unwrap_or(0)));
    }
}
