//! A mark: what one line of a meter file says to a layout.
ghost use Rattle.std.specs.Prelude.{◌<◌};

/// When a record was stamped.
#[derive(Clone, Copy, Debug, PartialEq, Eq)]
pub enum Stamp {
    Absent,
    WithinDay,
    Midnight,
}

/// A number that no stamp class has.
#[derive(Clone, Copy, Debug, PartialEq, Eq)]
pub struct UnknownStamp {
    pub class: u16,
}

/// A record number from 0 to 999 and the class of its stamp.
#[derive(Clone, Copy, Debug, PartialEq, Eq)]
pub struct Mark {
    pub(crate) number: u16,
    pub(crate) stamp: Stamp,
    ghost ranged: { number < 1000 },
}
