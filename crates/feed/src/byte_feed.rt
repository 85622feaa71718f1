//! The feed of a field's bytes.
ghost use Rattle.std.specs.Prelude.{◌≡◌, None};

use crate::fault::Fault;
use crate::feed::Feed;
use alphabet::bytes::Bytes;

/// A field's bytes, first to last, and then the end.
#[derive(Drop)]
pub struct ByteFeed<'a> {
    rest: &'a [u8],
}

impl<'a> ByteFeed<'a> {
    /// The feed of all the bytes of a field.
    pub fn new(field: &'a [u8]) -> ByteFeed<'a>
        ensures { result.rest.now ≡ field.now }
    {
        ByteFeed { rest: field }
    }
}

impl<'a> Feed for ByteFeed<'a> {
    type Letter = u8;

    type Of = Bytes;

    ghost waiting = { λ s. s.rest.now };

    ghost ending = { λ _. None };

    fn take(&mut self) -> Result<Option<u8>, Fault> {
        let Some((first, rest)) = self.rest.split_first() else {
            return Ok(None);
        };
        self.rest = rest;
        Ok(Some(*first))
    }
}
