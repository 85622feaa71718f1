//! The feed of a meter file's lines, each a mark.
ghost use Rattle.std.specs.Prelude.{◌≡◌, ◌+◌, ◌≤◌, drop};
ghost use Rattle.feed.specs.Lines.{line_ending, marks};
ghost use Rattle.text.specs.Lines.{lines};

use crate::fault::Fault;
use crate::feed::Feed;
use crate::line::read_line;
use alphabet::mark::Mark;
use alphabet::marks::Marks;
use text::lines::next_line;

/// The lines of a file from a place on, the first of which has the number `line`, counted from 1.
// Kept: the file with a place in it, not the part that is left: a rule of the project gives a line feed its place and line.
#[derive(Drop)]
pub struct LineFeed<'a> {
    file: &'a [u8],
    place: usize,
    line: usize,
    ghost counted: { line ≤ place + 1 },
}

impl<'a> LineFeed<'a> {
    /// The feed of all the lines of a file.
    pub fn new(file: &'a [u8]) -> LineFeed<'a>
        ensures waits { marks (lines (drop result.place result.file.now)) ≡ marks (lines file.now) }
        ensures ends { line_ending result.line (lines (drop result.place result.file.now)) ≡ line_ending 1 (lines file.now) }
    {
        LineFeed {
            file,
            place: 0,
            line: 1,
        }
    }
}

impl<'a> Feed for LineFeed<'a> {
    type Letter = Mark;

    type Of = Marks;

    ghost waiting = { λ s. marks (lines (drop s.place s.file.now)) };

    ghost ending = { λ s. line_ending s.line (lines (drop s.place s.file.now)) };

    fn take(&mut self) -> Result<Option<Mark>, Fault> {
        let Some(line) = next_line(self.file, self.place) else {
            return Ok(None);
        };
        let mark = read_line(line.bytes).map_err(|fault| fault.on(self.line))?;
        self.place = line.next;
        self.line += 1;
        Ok(Some(mark))
    }
}
