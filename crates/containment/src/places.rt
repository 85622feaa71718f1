//! The places of a layout.
ghost use Rattle.std.specs.Prelude.{◌≡◌};
ghost use Rattle.expression.specs.Layouts.{expression_of, nodes_of};
ghost use Rattle.containment.specs.Passes.{AllCoded, ComesAfter};
ghost use Rattle.containment.specs.Reaching.{Stepped};

use crate::after::After;
use crate::part::Part;
use crate::passes;
use crate::sets::{PLACES, Set};
use expression::layout::Layout;
use std::array;

/// The code of each place.
pub(crate) type Codes = [u16; PLACES];

/// The places of a layout, with the code of each.
#[derive(Drop)]
pub(crate) struct Places<'a> {
    pub(crate) layout: &'a Layout,
    pub(crate) codes: Codes,
    ghost coded: { AllCoded (nodes_of layout.now) codes },
}

impl<'a> Places<'a> {
    /// The places of a layout.
    pub(crate) fn new(layout: &'a Layout) -> Places<'a>
        ensures { result.layout.now ≡ layout.now }
    {
        let mut codes = [0; PLACES];
        Part::whole(layout).put_codes(&mut codes);
        Places { layout, codes }
    }

    /// What comes after the places of a set.
    #[inline(always)]
    pub(crate) fn after(&self, set: &Set) -> After
        ensures { ComesAfter (nodes_of self.now.layout.now) set.now result }
    {
        let closing = passes::closing(self.layout, set);
        let whole = Part::whole(self.layout);
        let start = set[0];
        let admits = whole.read().admits;
        let closes = closing[usize::from(whole.node)];
        let ends = (start && admits) || closes;
        let mut follow = [false; PLACES];
        whole.spread(&closing, start, &mut follow);
        After { ends, follow }
    }

    /// The places that have the code and follow one of the set.
    #[inline(always)]
    pub(crate) fn step(&self, set: &Set, code: u16) -> Set
        ensures { Stepped (expression_of self.now.layout.now) set.now code PLACES result }
    {
        let after = self.after(set);
        // Kept: both tests of each place, with no branch between them, which takes a third of the time.
        array::from_fn(|place| (self.codes[place] == code) & after.follow[place])
    }
}
