//! What the programs do.
ghost use Rattle.std.specs.Prelude.{ℕ, List, OnOk};
ghost use Rattle.std.specs.Io.KnownBytes.{Appends};
ghost use Rattle.expression.specs.Verdicts.{gives};
ghost use Rattle.script.specs.Dialects.{dialect};
ghost use Rattle.script.specs.Running.{Transcript};

use crate::input::{read_feed, read_text};
use crate::kind::Dialect;
use crate::running::run;
use std::alloc::Global;
use std::io;
use std::io::Write;

/// Runs a script, and writes all that it prints. `feed` is the meter file at hand.
pub fn print_run<K: Dialect, W: Write>(
    heap: Global,
    script: &[u8],
    feed: &[u8],
    out: &mut W,
) -> io::Result<()>
    ensures { OnOk result ((printed : List ℕ) × Transcript (dialect K.NUMBER) (gives K.Kind.lettered) script.now printed × Appends (W.contents out.old) (W.contents out.new) printed) }
{
    let printed = run::<K>(heap, script, feed)?;
    out.write_all(&printed)
}

/// Runs the script at standard input, and writes all that it prints.
pub fn run_program<K: Dialect, W: Write>(rt: &HostRuntime, out: &mut W) -> io::Result<()>
    ensures { OnOk result ((script : List ℕ) × (printed : List ℕ) × Transcript (dialect K.NUMBER) (gives K.Kind.lettered) script printed × Appends (W.contents out.old) (W.contents out.new) printed) }
{
    let script = read_text(rt.alloc(), rt.stdin())?;
    let feed = read_feed(rt)?;
    print_run::<K, W>(rt.alloc(), &script, &feed, out)
}
