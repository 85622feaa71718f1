//! Lines as parts of a text.
ghost use Rattle.std.specs.Prelude.{◌≡◌, [], slice_index_or};
ghost use Rattle.script.specs.Lines.{numbered as line_numbered, text_of};
ghost use Rattle.text.specs.Lines.{lines};

use crate::source::{Excerpt, Source};
use text::lines::lines;

/// The line at an index, or nothing where the text has none.
fn line_at<'a>(text: &'a [u8], index: usize) -> &'a [u8]
    ensures { result.now ≡ slice_index_or (lines text.now) index [] }
{
    lines(text).nth(index).unwrap_or(&[])
}

/// The line with the number `line`, from 1, or nothing where the text has none.
fn numbered<'a>(text: &'a [u8], line: usize) -> &'a [u8]
    ensures { result.now ≡ line_numbered (lines text.now) line }
{
    line.checked_sub(1)
        .map_or(&[], |index| line_at(text, index))
}

/// The line with the number `line`, from 1, of the text that `source` names; the empty part where it has no such line.
pub fn excerpt<'a>(script: &'a [u8], file: &'a [u8], source: Source, line: usize) -> Excerpt<'a>
    ensures source { result.source ≡ source }
    ensures line { result.line ≡ line }
    ensures bytes { result.bytes.now ≡ line_numbered (lines (text_of source script.now file.now)) line }
{
    let text = match source {
        Source::Script => script,
        Source::File => file,
    };
    Excerpt {
        source,
        line,
        bytes: numbered(text, line),
    }
}

#[cfg(test)]
mod tests {
    use super::*;

    #[test]
    fn excerpts(rt: HostRuntime) {
        let script = b"a\n\nbc\n";
        assert!(rt; excerpt(script, b"d", Source::Script, 3).bytes == b"bc".as_slice());
        assert!(rt; excerpt(script, b"d", Source::Script, 4).bytes.is_empty());
        assert!(rt; excerpt(script, b"d", Source::File, 0).bytes.is_empty());
        assert!(rt; excerpt(script, b"d", Source::File, 1).bytes == b"d".as_slice());
    }
}
