// The streams of a bank, followed from length to length.

use crate::entry::Entry;
use crate::watch::Watch;
use arrayvec::ArrayVec;
use bank::Bank;
use stream::{Class, MOST_STREAMS, Phase, Row};

mod demands;

// A stream that is followed. What its bank says once is copied, so that it is asked only for ceilings.
#[derive(Clone, Copy)]
pub(crate) struct Followed {
    pub(crate) entry: Entry,
    pub(crate) watch: Watch,
}

// A place that no stream has yet, as an `ArrayVec` wants it. Not derived: that would give rows a default, and a row of zeros breaks their limits.
impl Default for Followed {
    fn default() -> Followed {
        Followed {
            entry: Entry {
                number: 0,
                row: Row {
                    class: Class::Critical,
                    budget: 0,
                    certain: 0,
                    short: 0,
                    deadline: 0,
                    gap: 0,
                },
                count: 0,
            },
            watch: Watch::default(),
        }
    }
}

// The streams of a bank in one phase.
#[derive(Drop)]
pub(crate) struct Following<'a, B: Bank> {
    pub(crate) bank: &'a B,
    pub(crate) phase: Phase,
    pub(crate) streams: ArrayVec<Followed, MOST_STREAMS>,
}
