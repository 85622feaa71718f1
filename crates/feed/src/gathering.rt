//! Gathering a feed's letters into a buffer.
ghost use Rattle.std.specs.Prelude.{◌≡◌, ◌+◌, All, IfOk, IfSome, length, take, drop};
ghost use Rattle.feed.specs.Gathering.{TookAfter, gathered, limit, over};

use crate::fault::Fault;
use crate::feed::Feed;

/// Why a gathering did not come to the end.
#[derive(Clone, Copy, Debug, PartialEq, Eq)]
pub enum Ungathered {
    /// A fault came after this many letters.
    Fault(usize, Fault),
    /// A letter came beyond this limit.
    Beyond(usize),
}

/// Takes from the feed after `count` letters.
fn take_after<F: Feed>(feed: &mut F, count: usize) -> Result<Option<F::Letter>, Ungathered>
    ensures took { TookAfter count (F.waiting feed.old) (F.ending feed.old) result (F.waiting feed.new) }
    ensures ranged { IfOk result (λ letter. IfSome letter F.Of.Kind.ranged) }
    ensures same { F.ending feed.new ≡ F.ending feed.old }
{
    feed.take().map_err(|fault| Ungathered::Fault(count, fault))
}

/// Gathers at most as many letters as the buffer has room for.
fn fill<F: Feed>(feed: &mut F, buf: &mut [F::Letter]) -> Result<usize, Ungathered>
    ensures buffer { buf.new ≡ over (take (length buf.old) (F.waiting feed.old)) buf.old }
    ensures left { F.waiting feed.new ≡ drop (length buf.old + 1) (F.waiting feed.old) }
    ensures same { F.ending feed.new ≡ F.ending feed.old }
    ensures answer { result ≡ gathered (F.waiting feed.old) (F.ending feed.old) (length buf.old) }
    ensures ranged { All F.Of.Kind.ranged (take (length buf.old) (F.waiting feed.old)) }
{
    for (count, slot) in buf.iter_mut().enumerate() {
        match take_after(feed, count)? {
            Some(letter) => *slot = letter,
            None => return Ok(count),
        }
    }
    match take_after(feed, buf.len())? {
        Some(_) => Err(Ungathered::Beyond(buf.len())),
        None => Ok(buf.len()),
    }
}

/// Takes from the feed up to and with its ending, or the first letter beyond the limit, and writes the letters
/// before that to the front of the buffer. The limit is 4,096 or the buffer's length, if that is smaller.
#[tactic(auto, using(crate::proofs::GatherLaws::over_front))]
pub fn gather<F: Feed>(feed: &mut F, buf: &mut [F::Letter]) -> Result<usize, Ungathered>
    ensures buffer { buf.new ≡ over (take (limit buf.old) (F.waiting feed.old)) buf.old }
    ensures left { F.waiting feed.new ≡ drop (limit buf.old + 1) (F.waiting feed.old) }
    ensures same { F.ending feed.new ≡ F.ending feed.old }
    ensures answer { result ≡ gathered (F.waiting feed.old) (F.ending feed.old) (limit buf.old) }
    ensures ranged { All F.Of.Kind.ranged (take (limit buf.old) (F.waiting feed.old)) }
{
    let most = buf.len().min(4096);
    fill(feed, &mut buf[..most])
}
