//! The order of the numbers in a list of rows.
ghost use Rattle.std.specs.Prelude.{◌≡◌};
ghost use Rattle.expression.specs.Layouts.{places_of};
ghost use Rattle.containment.specs.Checking.{order_verdict};
ghost use Rattle.containment.specs.declared.want.Want.TheVariants.{Place};
ghost use Rattle.containment.specs.Format as format;

use crate::fault::RowsFault;
use crate::want::Want;
use expression::layout::Layout;

/// The most numbers that a list may have.
const MOST: usize = 16384;

/// How many places each of two layouts has.
#[derive(Clone, Copy)]
pub(crate) struct Counts {
    earlier: u8,
    later: u8,
}

impl Counts {
    /// The counts of two layouts.
    pub(crate) fn of(earlier: &Layout, later: &Layout) -> Counts
        ensures earlier { result.earlier ≡ places_of earlier.now }
        ensures later { result.later ≡ places_of later.now }
    {
        Counts {
            earlier: earlier.places(),
            later: later.places(),
        }
    }

    /// Is the number one that is wanted?
    fn fit(self, want: Want, number: usize) -> bool
        ensures { result ≡ format.fits self.earlier self.later want number }
    {
        match want {
            Want::Place => number <= usize::from(self.earlier),
            Want::Size => number <= usize::from(self.later) + 1,
            Want::Member(_, least) => least <= number && number <= usize::from(self.later),
        }
    }

    /// Checks the numbers of rows, one by one.
    fn check_each(self, numbers: &[u16]) -> Result<(), RowsFault>
        ensures { result ≡ order_verdict (format.ill_from self.earlier self.later Place 0 numbers.now) }
    {
        let mut want = Want::Place;
        for (i, n) in numbers.iter().enumerate() {
            let number = usize::from(*n);
            if !self.fit(want, number) {
                return Err(RowsFault::IllFormed(i));
            }
            want = want.next(number);
        }
        match want {
            Want::Place => Ok(()),
            _ => Err(RowsFault::IllFormed(numbers.len())),
        }
    }

    /// Checks that a list is well formed: rows from places of the earlier layout to places of the later one.
    pub(crate) fn check(self, numbers: &[u16]) -> Result<(), RowsFault>
        ensures { result ≡ order_verdict (format.ill self.earlier self.later numbers.now) }
    {
        if numbers.len() > MOST {
            return Err(RowsFault::IllFormed(MOST));
        }
        if numbers.is_empty() {
            return Err(RowsFault::IllFormed(0));
        }
        self.check_each(numbers)
    }
}
