//! Sets of places, as tables.
ghost use Rattle.containment.specs.Indexing.{Low};
ghost use Rattle.containment.specs.Serving.{Marks};

/// Place 0, and the places of a layout, which are 128 at most.
pub(crate) const PLACES: usize = 129;

/// A set of places: of each place, is it in the set?
// Kept: judging allocates nothing, so a set is an array of tests.
pub(crate) type Set = [bool; PLACES];

/// The set of some places.
// Kept: a clause for low places, since `Members { places: &[0] }.set()`, with a type that holds it, is no plainer than `sets::of(&[0])`.
pub(crate) fn of(places: &[u16]) -> Set
    requires { Low places.now }
    ensures { Marks places.now result }
{
    let mut set = [false; PLACES];
    for place in places {
        set[usize::from(*place)] = true;
    }
    set
}
