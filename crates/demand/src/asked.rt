// One stream of a bank at a length, with what is known of it at hand.

ghost use Rattle.std.specs.Prelude.{◌≤◌};
ghost use Rattle.demand.specs.Listing.{Entered};
ghost use Rattle.demand.specs.Watching.{Watched};

use crate::entry::Entry;
use crate::watch::Plateau;
use bank::Bank;
use stream::Phase;

mod asking;

// A stream that is asked for its ceiling, so that its share in a phase is known; `seen` is what was last seen of it.
#[derive(Drop)]
pub(crate) struct Asked<'a, 'b, B: Bank> {
    pub(crate) bank: &'a B,
    pub(crate) phase: Phase,
    pub(crate) entry: &'b Entry,
    pub(crate) seen: Plateau,
    pub(crate) length: u64,
    ghost entered: { Entered B.kind bank.now entry.now },
    ghost within: { length ≤ 1000000 },
    ghost watched: { Watched phase entry.now.row (B.kind.ceiling bank.now entry.now.number) length seen },
}
