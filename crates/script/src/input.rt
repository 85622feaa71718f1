//! What a program reads: its script and its meter file.
ghost use Rattle.std.specs.Prelude.{◌≤◌, IfOk, vec_len};

use crate::running::LONGEST;
use std::alloc::Global;
use std::fs::File;
use std::io;
use std::io::{ErrorKind, Read};

/// Reads a text, and no more of it than one byte past the longest: that byte tells that it is too long.
pub fn read_text<R: Read + Drop>(heap: Global, source: R) -> io::Result<Vec<u8>>
    ensures { IfOk result (λ text. vec_len text ≤ 16385) }
{
    let mut text = Vec::new(heap);
    source.take(LONGEST as u64 + 1).read_to_end(&mut text)?;
    text.truncate(LONGEST + 1);
    Ok(text)
}

/// Reads the meter file `feed.txt` of the folder that the program runs in. A file that is not there counts as empty.
pub fn read_feed(rt: &HostRuntime) -> io::Result<Vec<u8>>
    ensures { IfOk result (λ text. vec_len text ≤ 16385) }
{
    match File::open(rt, "feed.txt") {
        Ok(file) => read_text(rt.alloc(), file),
        Err(e) if e.kind() == ErrorKind::NotFound => Ok(Vec::new(rt.alloc())),
        Err(e) => Err(e),
    }
}
