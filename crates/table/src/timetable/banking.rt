// How a timetable is a bank.

ghost use Rattle.std.specs.Prelude.{refl};
ghost use Rattle.table.specs.Tabled.{timetabled};
ghost use Rattle.table.specs.Lawful.{timetabled_lawful};

use crate::timed::Timed;
use crate::timetable::Timetable;
use bank::Bank;
use stream::{Record, Refusal};

impl<S: Timed> Bank for Timetable<S> {
    ghost kind = { timetabled S.LETTER S.recorded S.first_wait S.wait_after };

    ghost LETTER = { S.LETTER };

    const LETTER: char = S::LETTER;

    ghost lettered = { refl };

    ghost lawful = { timetabled_lawful S.LETTER S.recorded S.first_wait S.wait_after S.opens_no_more };

    fn streams(&self) -> u64 {
        self.table.streams()
    }

    fn record_of(&self, stream: u64) -> Option<Record> {
        let state = self.table.state(stream)?;
        Some(state.stream.record())
    }

    // One release a gap is what a table lets through.
    fn count(&self, stream: u64) -> Option<u64> {
        self.table.state(stream).map(|_| 1)
    }

    fn ceiling(&self, stream: u64, m: i64) -> Option<u64> {
        self.table.state(stream)?.told(0, m)
    }

    fn opening(&self, stream: u64, m: i64) -> Option<u64> {
        let state = self.table.state(stream)?;
        state.told(state.wait, m)
    }

    fn begin(&mut self, moment: u64) {
        self.table.begin_all(moment);
    }

    fn tick(&mut self) {
        self.table.tick_all();
    }

    fn accept(&mut self, stream: u64) -> Result<(), Refusal> {
        self.table.accept(stream)
    }
}
