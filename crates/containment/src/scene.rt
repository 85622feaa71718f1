//! Rows between two layouts.
ghost use Rattle.std.specs.Prelude.{◌≡◌, None};
ghost use Rattle.std.proofs.Props.{props};
ghost use Rattle.expression.specs.Layouts.{places_of};
ghost use Rattle.containment.specs.Format.{ill};

use crate::index::Index;
use crate::places::Places;
use expression::layout::Layout;

/// A well-formed list of rows, and the layouts that it lies between.
#[derive(Drop)]
pub(crate) struct Scene<'a> {
    pub(crate) earlier: Places<'a>,
    pub(crate) later: Places<'a>,
    pub(crate) rows: &'a Index<'a>,
    ghost well: { ill (places_of earlier.layout.now) (places_of later.layout.now) rows.now.numbers.now ≡ None } by { Prim.hlevel props },
}

impl<'a> Scene<'a> {
    /// The scene of a well-formed list.
    pub(crate) fn new(earlier: &'a Layout, later: &'a Layout, rows: &'a Index<'a>) -> Scene<'a>
        requires { ill (places_of earlier.now) (places_of later.now) rows.now.numbers.now ≡ None }
        ensures earlier { result.earlier.layout.now ≡ earlier.now }
        ensures later { result.later.layout.now ≡ later.now }
        ensures rows { result.rows.now.numbers.now ≡ rows.now.numbers.now }
    {
        Scene {
            earlier: Places::new(earlier),
            later: Places::new(later),
            rows,
        }
    }
}
