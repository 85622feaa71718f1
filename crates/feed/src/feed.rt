//! The meaning that every feed shows.
ghost use Rattle.std.specs.Prelude.{◌≡◌, List, Option, IfOk, IfSome};
ghost use Rattle.feed.specs.Feeds.{Took};
ghost use Rattle.feed.specs.declared.fault.Fault.{Fault};

use crate::fault::Fault;
use alphabet::kind::Kind;

/// Letters that come one by one, and then the end or a fault, which stays.
pub trait Feed {
    type Letter: Copy + Drop;

    type Of: Kind<Letter = Self::Letter>;

    /// The letters that still wait, first to last.
    ghost waiting: { Self → List Self.Letter };

    /// The fault after the last of them, or none where the end comes there.
    ghost ending: { Self → Option Fault };

    /// Removes and answers the first letter waiting; with none waiting, answers the end or the fault, each time.
    fn take(&mut self) -> Result<Option<Self::Letter>, Fault>
        ensures took { Took (waiting self.old) (ending self.old) result (waiting self.new) }
        ensures ranged { IfOk result (λ letter. IfSome letter Self.Of.Kind.ranged) }
        ensures same { ending self.new ≡ ending self.old };
}
