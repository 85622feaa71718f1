//! Bytes as letters, coded by their value.
ghost use Rattle.std.specs.Prelude.{◌<◌};
ghost use Rattle.alphabet.specs.Codes.{byte_letter};
ghost use Rattle.alphabet.specs.ByteLaws;

use crate::kind::Kind;

#[derive(Clone, Copy)]
pub struct Bytes;

impl Kind for Bytes {
    type Letter = u8;

    ghost ranged = { λ l. l < 256 };

    ghost coded = { λ l. l };

    ghost lettered = { byte_letter };

    ghost back = { ByteLaws.back };

    ghost only = { ByteLaws.only };

    fn code(l: u8) -> u16 {
        u16::from(l)
    }

    fn letter(code: u16) -> Option<u8> {
        u8::try_from(code).ok()
    }
}
