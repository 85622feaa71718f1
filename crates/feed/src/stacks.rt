//! An example of a stack of layers, proved from the contracts of its parts alone.
ghost use Rattle.std.specs.Prelude.{◌≡◌, take};
ghost use Rattle.feed.specs.Gathering.{gathered, limit, over};
ghost use Rattle.feed.specs.Lines.{line_ending};
ghost use Rattle.text.specs.Lines.{lines};
ghost use Rattle.feed.specs.Stacks.{sifted};
ghost use Rattle.feed.specs.Tables.{codes_of, pairs_of};

use crate::gathering::{Ungathered, gather};
use crate::layers::{Rename, Skip};
use crate::line_feed::LineFeed;
use crate::tables::{RenameTable, SkipList};
use alphabet::mark::Mark;

/// The marks of a file, some skipped and the others renamed, in a buffer.
pub fn gather_file(
    file: &[u8],
    list: SkipList,
    table: RenameTable,
    buf: &mut [Mark],
) -> Result<usize, Ungathered>
    ensures buffer { buf.new ≡ over (take (limit buf.old) (sifted (codes_of list) (pairs_of table) file.now)) buf.old }
    ensures answer { result ≡ gathered (sifted (codes_of list) (pairs_of table) file.now) (line_ending 1 (lines file.now)) (limit buf.old) }
{
    let mut feed = Rename::new(Skip::new(LineFeed::new(file), list), table);
    gather(&mut feed, buf)
}
