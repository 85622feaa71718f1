//! Laws of the calls. Each function does nothing: its clause is the law.
ghost use Rattle.register.specs.Lodging.{OneAnswer};

/// A lodging has one answer: want of memory aside, what the register held and the table decide it.
pub fn one_answer()
    ensures { OneAnswer }
{}
