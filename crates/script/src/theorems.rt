//! What is proved of reading and running as a whole. Each function does nothing: its clause is the law.
ghost use Rattle.script.specs.Law.{OneFault, OneForm};
ghost use Rattle.script.specs.Running.{OneTranscript};

/// The leftmost fault of a line is one.
pub fn one_fault()
    ensures { OneFault }
{}

/// The form that a line is, is one.
pub fn one_form()
    ensures { OneForm }
{}

/// What a script prints is one thing: the script and the dialect decide it.
pub fn one_transcript()
    ensures { OneTranscript }
{}
