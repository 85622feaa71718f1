//! Laws of readings. Each function does nothing: its clause is the law.
ghost use Rattle.matching.specs.Outcomes.{OneReading};
ghost use Rattle.matching.specs.Rows.{Indexed};

/// The bytes of the work, by their indices.
#[tactic(auto, using(crate::proofs::RowLaws::indexed))]
pub fn rows_are_indexed()
    ensures { Indexed }
{}

/// Letters have one first tree or are no word, and never both.
#[tactic(auto, using(crate::proofs::Telling::one_reading))]
pub fn letters_have_one_reading()
    ensures { OneReading }
{}
