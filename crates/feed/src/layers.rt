//! Layers over any feed: one that renames letters, and one that skips letters.
ghost use Rattle.std.specs.Prelude.{◌≡◌, map, IfOk, IfSome};
ghost use Rattle.feed.specs.Feeds.{Took};
ghost use Rattle.feed.specs.Tables.{codes_of, pairs_of};
ghost use Rattle.feed.specs.Layers.{kept, renamed};

use crate::fault::Fault;
use crate::feed::Feed;
use crate::tables::{RenameTable, SkipList};
use alphabet::kind::Kind;

/// The feed below, its letters renamed.
#[derive(Drop)]
pub struct Rename<F> {
    below: F,
    table: RenameTable,
}

impl<F> Rename<F> {
    /// The layer of a checked table over a feed of any kind; a target that is no letter of that kind renames nothing.
    pub fn new(below: F, table: RenameTable) -> Rename<F>
        ensures below { result.below ≡ below }
        ensures table { result.table ≡ table }
    {
        Rename { below, table }
    }
}

/// The letter in the place of this one.
fn renamed_letter<K: Kind>(table: &RenameTable, letter: K::Letter) -> K::Letter
    ensures value { result ≡ renamed K.Kind.coded K.Kind.lettered (pairs_of table.now) letter }
    ensures ranged { K.Kind.ranged letter → K.Kind.ranged result }
{
    table
        .target(K::code(letter))
        .and_then(|code| K::letter(code))
        .unwrap_or(letter)
}

impl<F: Feed> Feed for Rename<F> {
    type Letter = F::Letter;

    type Of = F::Of;

    ghost waiting = { λ s. map (renamed F.Of.Kind.coded F.Of.Kind.lettered (pairs_of s.table)) (F.Feed.waiting s.below) };

    ghost ending = { λ s. F.Feed.ending s.below };

    fn take(&mut self) -> Result<Option<F::Letter>, Fault> {
        let letter = self.below.take()?;
        Ok(letter.map(|letter| renamed_letter::<F::Of>(&self.table, letter)))
    }
}

/// The feed below without the letters of a list.
#[derive(Drop)]
pub struct Skip<F> {
    below: F,
    list: SkipList,
}

impl<F> Skip<F> {
    /// The layer of a checked list over a feed of any kind.
    pub fn new(below: F, list: SkipList) -> Skip<F>
        ensures below { result.below ≡ below }
        ensures list { result.list ≡ list }
    {
        Skip { below, list }
    }
}

/// Takes until a letter comes that the list has not, or the end or a fault.
fn take_past<F: Feed>(feed: &mut F, list: &SkipList) -> Result<Option<F::Letter>, Fault>
    ensures took { Took (kept F.Of.Kind.coded (codes_of list.now) (F.Feed.waiting feed.old)) (F.Feed.ending feed.old) result (kept F.Of.Kind.coded (codes_of list.now) (F.Feed.waiting feed.new)) }
    ensures ranged { IfOk result (λ letter. IfSome letter F.Of.Kind.ranged) }
    ensures same { F.Feed.ending feed.new ≡ F.Feed.ending feed.old }
{
    while let Some(letter) = feed.take()? {
        if !list.has(F::Of::code(letter)) {
            return Ok(Some(letter));
        }
    }
    Ok(None)
}

impl<F: Feed> Feed for Skip<F> {
    type Letter = F::Letter;

    type Of = F::Of;

    ghost waiting = { λ s. kept F.Of.Kind.coded (codes_of s.list) (F.Feed.waiting s.below) };

    ghost ending = { λ s. F.Feed.ending s.below };

    fn take(&mut self) -> Result<Option<F::Letter>, Fault> {
        take_past(&mut self.below, &self.list)
    }
}
