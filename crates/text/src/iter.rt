//! Going over the lines of a text.
ghost use Rattle.std.specs.Iterator.{YieldsFirstRef, item_count};

use crate::lines::split_line;
use std::marker::Model;

/// The lines of a text that are still to come.
#[derive(Drop)]
pub struct Lines<'a> {
    pub(crate) rest: &'a [u8],
}

impl<'a> Model for Lines<'a> {
    ghost use Rattle.std.specs.Prelude.{ℕ, List};
    ghost use Rattle.text.specs.Lines.{lines};

    ghost Value = { List (List ℕ) };

    ghost view = { λ s. lines s.rest.now };
}

impl<'a> Iterator for Lines<'a> {
    type Item = &'a [u8];

    ghost next_gives = { YieldsFirstRef (λ s. s) };

    ghost remaining = { item_count (λ s. s) };

    fn next(&mut self) -> Option<&'a [u8]> {
        let (line, rest) = split_line(self.rest)?;
        self.rest = rest;
        Some(line)
    }
}
