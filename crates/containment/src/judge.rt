//! The judging of rows.
ghost use Rattle.std.specs.Prelude.{◌≡◌, ◌<◌, ◌≤◌, ◌↔◌, length, find, None, Ok};
ghost use Rattle.std.specs.List.{range_with_len};
ghost use Rattle.expression.specs.Layouts.{expression_of, places_of};
ghost use Rattle.containment.specs.Checking.{row_fault, rows_fault, rules_fault, verdict};
ghost use Rattle.containment.specs.Checking as checking;
ghost use Rattle.containment.specs.Format.{ill, rows_of};
ghost use Rattle.containment.specs.Rows.{row_at};
ghost use Rattle.containment.specs.Scenes.{earlier_of, later_of, rows_in};
ghost use Rattle.containment.specs.Serving.{unserved_by};
ghost use Rattle.containment.specs.Theorems.{Contained};
ghost use Rattle.containment.specs.Verdicts.{Admits, Judged};

use crate::after::After;
use crate::fault::RowsFault;
use crate::index::Index;
use crate::list::Counts;
use crate::scene::Scene;
use crate::sets;
use expression::layout::Layout;

/// Is the first row the place 0 with the set of 0 alone?
fn begins(rows: &Index) -> bool
    requires { 0 < length (rows_of rows.now.numbers.now) }
    ensures { result ≡ checking.begins (rows_of rows.now.numbers.now) }
{
    let first = rows.row(0);
    first.place == 0 && matches!(first.set, [0])
}

impl Scene<'_> {
    /// The lowest of the followers `here` that no row serves, where the places `there` follow the row's set.
    fn unserved(&self, here: &After, there: &After) -> Option<usize>
        ensures { result ≡ find (unserved_by (rows_in self.now) here.now.follow self.now.earlier.codes there.now.follow self.now.later.codes)
            (range_with_len 1 (places_of self.now.earlier.layout.now)) }
    {
        let codes = &self.earlier.codes;
        // Kept: not 1..=n, since the library has no lemma on a search of such a range.
        (1..usize::from(self.earlier.layout.places()) + 1).find(|f| {
            here.follow[*f]
                && !self
                    .rows
                    .serves(*f, &there.follow, &self.later.codes, codes[*f])
        })
    }

    /// Checks row `n`: rule 2 before rule 3.
    fn check_row(&self, n: usize) -> Result<(), RowsFault>
        requires { n < length (rows_in self.now) }
        ensures { result ≡ verdict (row_fault (earlier_of self.now) (later_of self.now) (rows_in self.now) n (row_at (rows_in self.now) n)) }
    {
        let row = self.rows.row(n);
        let here = self.earlier.after(&sets::of(&[row.place]));
        let there = self.later.after(&sets::of(row.set));
        if here.ends && !there.ends {
            return Err(RowsFault::End(n));
        }
        match self.unserved(&here, &there) {
            Some(f) => Err(RowsFault::Follower(n, f)),
            None => Ok(()),
        }
    }

    /// Checks the rows one by one.
    fn check_rows(&self) -> Result<(), RowsFault>
        ensures { result ≡ verdict (rows_fault (earlier_of self.now) (later_of self.now) (rows_in self.now) 0 (rows_in self.now)) }
    {
        for n in 0..self.rows.count() {
            self.check_row(n)?;
        }
        Ok(())
    }
}

/// Checks the rules on a well-formed list: rule 1, then row by row.
fn check_rules(earlier: &Layout, later: &Layout, rows: &Index) -> Result<(), RowsFault>
    requires { ill (places_of earlier.now) (places_of later.now) rows.now.numbers.now ≡ None }
    ensures { result ≡ verdict (rules_fault (expression_of earlier.now) (expression_of later.now) (rows_of rows.now.numbers.now)) }
{
    // Kept: rule 1 before the scene is made, since it needs no codes.
    if !begins(rows) {
        return Err(RowsFault::Start);
    }
    Scene::new(earlier, later, rows).check_rows()
}

/// Judges a list of rows: its order, then the rules.
fn judge(earlier: &Layout, later: &Layout, rows: &[u16]) -> Result<(), RowsFault>
    ensures judged { Judged (expression_of earlier.now) (expression_of later.now) rows.now result }
    ensures accepts { (result ≡ Ok tt) ↔ Admits (expression_of earlier.now) (expression_of later.now) rows.now }
    ensures sound { result ≡ Ok tt → Contained (expression_of earlier.now) (expression_of later.now) }
{
    Counts::of(earlier, later).check(rows)?;
    let rows = Index::new(rows);
    check_rules(earlier, later, &rows)
}

/// Judges a list of rows from an earlier layout to a later one: accepted if it is well formed and keeps the rules, else refused by its first fault.
// Kept: thin over a proved one, so that an edit here is refused by this contract itself, at no file of proofs.
pub fn judge_rows(earlier: &Layout, later: &Layout, rows: &[u16]) -> Result<(), RowsFault>
    ensures judged { Judged (expression_of earlier.now) (expression_of later.now) rows.now result }
    ensures accepts { (result ≡ Ok tt) ↔ Admits (expression_of earlier.now) (expression_of later.now) rows.now }
    ensures sound { result ≡ Ok tt → Contained (expression_of earlier.now) (expression_of later.now) }
{
    judge(earlier, later, rows)
}
