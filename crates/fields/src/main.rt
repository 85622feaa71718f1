//! Runs a script over bytes, from standard input to standard output.
#![tactic(auto)]

use alphabet::bytes::Bytes;
use script::program::run_program;
use std::io;

fn main(rt: HostRuntime) -> io::Result<()> {
    run_program::<Bytes, _>(&rt, &mut rt.stdout())
}
