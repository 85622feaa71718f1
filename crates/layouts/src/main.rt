//! Runs a script over marks, from standard input to standard output.
#![tactic(auto)]

use alphabet::marks::Marks;
use script::program::run_program;
use std::io;

fn main(rt: HostRuntime) -> io::Result<()> {
    run_program::<Marks, _>(&rt, &mut rt.stdout())
}
