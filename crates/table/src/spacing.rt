// Streams of which two releases are never nearer to each other than the gap.

ghost use Rattle.table.specs.Waits.{one_less, open_at_once};
ghost use Rattle.table.specs.WaitsLemmas.{tick_opens_no_more};

use crate::timed::Timed;
use stream::{Class, Record, Row};

// Any row that keeps the limits would do.
const BLANK: Row = Row {
    class: Class::Background,
    budget: 1,
    certain: 0,
    short: 1,
    deadline: 1,
    gap: 1,
};

// Such a stream is its record: it opens at once, and each tick takes one off its wait.
impl Timed for Record {
    ghost recorded = { λ r. r };

    ghost first_wait = { open_at_once };

    ghost wait_after = { one_less };

    ghost alike = { λ r s. Unit {0} };

    ghost LETTER = { 83 };

    const LETTER: char = 'S';

    ghost opens_no_more = { λ r wait m. tick_opens_no_more wait r.row.gap m r.within.0.0 };

    fn blank() -> Record {
        Record::new(BLANK).unwrap()
    }

    fn record(&self) -> Record {
        *self
    }

    fn first_wait(&self, _moment: u64) -> u64 {
        0
    }

    fn wait_after(&self, wait: u64) -> u64 {
        wait.saturating_sub(1)
    }

    fn with_record(&self, other: Record) -> Record {
        other
    }
}
