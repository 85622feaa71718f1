//! Making the tables of the layers, and looking codes up in them.
ghost use Rattle.std.specs.Prelude.{◌≡◌};
ghost use Rattle.feed.specs.Entries.{entries_of};
ghost use Rattle.feed.specs.Tables.{codes_of, few_checked, first_misfit, layer_fault, listed, misfit, pairs_of, rename_checked, skip_checked, target_of, with_table};

use crate::entries::Entries;
use crate::fault::Fault;
use crate::tables::{LayerFault, MOST, Pair, RenameTable, SkipList};
use alphabet::kind::Kind;

/// What stands past a table's pairs.
const BLANK: Pair = Pair {
    source: 0,
    target: 0,
};

impl From<LayerFault> for Fault {
    ghost from_gives = { λ refusal fault. fault ≡ layer_fault refusal };

    /// The refusal's number and its two values.
    fn from(refusal: LayerFault) -> Fault {
        let first = match refusal {
            LayerFault::TooMany => MOST,
            LayerFault::Entry(entry) => entry,
        };
        Fault {
            number: 43,
            first,
            second: 0,
        }
    }
}

impl<T: Copy + Drop> Entries<T> {
    /// These entries, with `blank` in the places past them.
    fn new(entries: &[T], blank: T) -> Result<Entries<T>, LayerFault>
        ensures { with_table entries_of result ≡ few_checked entries.now }
    {
        if entries.len() > MOST {
            return Err(LayerFault::TooMany);
        }
        let mut items = [blank; MOST];
        items[..entries.len()].copy_from_slice(entries);
        Ok(Entries {
            items,
            count: entries.len(),
        })
    }

    /// The entries, in order.
    fn as_slice(&self) -> &[T]
        ensures { result.now ≡ entries_of self.now }
    {
        &self.items[..self.count]
    }
}

/// The target of the first pair with this source.
fn target(pairs: &[Pair], source: u16) -> Option<u16>
    ensures { result ≡ target_of pairs.now source }
{
    pairs
        .iter()
        .find(|pair| pair.source == source)
        .map(|pair| pair.target)
}

/// Whether a pair cannot stand after these.
fn is_misfit<K: Kind>(before: &[Pair], pair: Pair) -> bool
    ensures { result ≡ misfit K.Kind.lettered before.now pair }
{
    K::letter(pair.target).is_none() || target(before, pair.source).is_some()
}

/// The first pair whose target is no letter, or whose source an earlier pair has.
fn first_misfit<K: Kind>(pairs: &[Pair]) -> Option<usize>
    ensures { result ≡ first_misfit K.Kind.lettered pairs.now }
{
    pairs
        .iter()
        .enumerate()
        .position(|(i, pair)| is_misfit::<K>(&pairs[..i], *pair))
}

impl RenameTable {
    /// The table of these renames, each to a letter of the kind `K` and each from another code.
    pub fn new<K: Kind>(pairs: &[Pair]) -> Result<RenameTable, LayerFault>
        ensures { with_table pairs_of result ≡ rename_checked K.Kind.lettered pairs.now }
    {
        let table = RenameTable {
            pairs: Entries::new(pairs, BLANK)?,
        };
        match first_misfit::<K>(pairs) {
            Some(entry) => Err(LayerFault::Entry(entry)),
            None => Ok(table),
        }
    }

    /// The code that takes the place of this one, or none.
    pub(crate) fn target(&self, code: u16) -> Option<u16>
        ensures { result ≡ target_of (pairs_of self.now) code }
    {
        target(self.pairs.as_slice(), code)
    }
}

impl SkipList {
    /// The list of these codes, which need not be letters.
    pub fn new(codes: &[u16]) -> Result<SkipList, LayerFault>
        ensures { with_table codes_of result ≡ skip_checked codes.now }
    {
        Ok(SkipList {
            codes: Entries::new(codes, 0)?,
        })
    }

    /// Whether the list has this code.
    pub(crate) fn has(&self, code: u16) -> bool
        ensures { result ≡ listed (codes_of self.now) code }
    {
        self.codes.as_slice().iter().any(|listed| *listed == code)
    }
}
