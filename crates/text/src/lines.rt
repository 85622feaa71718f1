//! A text line by line.
ghost use Rattle.std.specs.Prelude.{◌≡◌, ◌+◌, ◌<◌, ◌≤◌, ◌==◌, min, [], ◌∷◌, length, drop, MatchOption};
ghost use Rattle.std.specs.List.{position_or_len};
ghost use Rattle.text.specs.Lines.{lines};

use crate::iter::Lines;

/// A line of a text, and where the next one begins.
// Kept: a place to go on from, not the part that is left: this is public, and a line feed holds its place.
#[derive(Clone, Copy)]
pub struct Line<'a> {
    pub bytes: &'a [u8],
    pub next: usize,
}

/// The length of the first line, and the part after its line feed, or after it where it has none.
fn first_line(text: &[u8]) -> (usize, &[u8])
    ensures length { result.0 ≡ position_or_len (λ b. b == 10) text.now }
    ensures rest { result.1.now ≡ drop (result.0 + 1) text.now }
{
    let mut bytes = text.iter();
    let length = bytes.position(|b| *b == b'\n').unwrap_or(text.len());
    (length, bytes.as_slice())
}

/// The first line of a text, and the part after it; none where the text is empty.
#[tactic(auto, using(crate::proofs::Cuts::cut))]
pub(crate) fn split_line<'a>(text: &'a [u8]) -> Option<(&'a [u8], &'a [u8])>
    ensures cut { MatchOption result (lines text.now ≡ []) (λ p. lines text.now ≡ p.0.now ∷ lines p.1.now) }
    ensures rest { MatchOption result (text.now ≡ []) (λ p. p.1.now ≡ drop (length p.0.now + 1) text.now) }
    ensures within { MatchOption result (text.now ≡ []) (λ p. length p.0.now ≤ length text.now) }
    ensures less { MatchOption result (text.now ≡ []) (λ p. length p.1.now < length text.now) }
{
    if text.is_empty() {
        return None;
    }
    let (length, rest) = first_line(text);
    Some((&text[..length], rest))
}

/// The line that begins at the byte `from`, and where the next begins; none where `from` is at the text's end or past it.
#[tactic(auto, using(crate::proofs::Cuts::onward))]
pub fn next_line<'a>(text: &'a [u8], from: usize) -> Option<Line<'a>>
    ensures cut { MatchOption result (lines (drop from text.now) ≡ []) (λ l. lines (drop from text.now) ≡ l.bytes.now ∷ lines (drop l.next text.now)) }
    ensures next { MatchOption result (length text.now ≤ from) (λ l. l.next ≡ min (from + length l.bytes.now + 1) (length text.now)) }
    ensures onward { MatchOption result (length text.now ≤ from) (λ l. from < l.next) }
{
    let (bytes, _) = split_line(text.get(from..)?)?;
    let end = from + bytes.len();
    let next = if end < text.len() { end + 1 } else { end };
    Some(Line { bytes, next })
}

/// The lines of a text, in order, no more of them than bytes.
#[tactic(auto, using(crate::proofs::Cuts::few))]
pub fn lines<'a>(text: &'a [u8]) -> Lines<'a>
    ensures value { result ≡ lines text.now }
    ensures few { length result ≤ length text.now }
{
    Lines { rest: text }
}
