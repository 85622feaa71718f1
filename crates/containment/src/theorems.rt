//! The theory of rows. Each theorem is the contract of a function that does nothing.
ghost use Rattle.containment.specs.Format.{Format};
ghost use Rattle.containment.specs.Theorems.{OneVerdicts, RowsOrWord, Sound};
ghost use Rattle.containment.specs.Worked.{Worked};

/// A list of numbers is ill formed nowhere exactly if it is that of rows in range, and then of one list of rows only.
pub fn lists_are_rows()
    ensures { Format }
{}

/// Where rows keep the rules, every word of the earlier expression is a word of the later.
pub fn rows_are_sound()
    ensures { Sound }
{}

/// For any two expressions there are rows that keep the rules or a word that refutes, never both.
pub fn rows_or_word()
    ensures { RowsOrWord }
{}

/// Every list of rows and every word has one verdict.
#[tactic(auto, using(crate::proofs::Judging::one_verdicts))]
pub fn one_verdict()
    ensures { OneVerdicts }
{}

/// The worked lines hold, those on trees and those on rows.
#[tactic(auto, using(crate::proofs::AllWorked::all_worked))]
pub fn worked_lines_hold()
    ensures { Worked }
{}
