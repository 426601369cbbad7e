// Making and growing a timetable, and shortening its streams.

ghost use Rattle.std.specs.Prelude.{◌≡◌, [], length};
ghost use Rattle.stream.specs.Rooms.{RoomTold};
ghost use Rattle.table.specs.Growing.{Grown, GrownOn};
ghost use Rattle.table.specs.Tables.{states_of};
ghost use Rattle.table.specs.Rasters.{raster};
ghost use Rattle.table.specs.Shortening.{Shortening};
ghost use Rattle.table.specs.Sporadics.{sporadic};

use crate::phasing::OnRaster;
use crate::shared::Table;
use crate::shortening::{Shortfall, Thousandths};
use crate::timed::Timed;
use crate::timetable::Timetable;
use bank::Bank;
use stream::{Record, Refusal, room_for_more};

impl<S: Timed> Timetable<S> {
    pub fn new() -> Timetable<S>
        ensures { states_of result.table ≡ [] }
    {
        Timetable {
            table: Table::new(),
        }
    }

    // Whether a stream more has a place.
    fn has_room(&self) -> Result<(), Refusal>
        ensures { RoomTold (length (states_of self.now.table)) result }
    {
        room_for_more(self.table.streams())
    }

    // Gives every critical stream a short deadline of so many thousandths of its deadline, if none would be below its budget.
    pub fn shorten(&mut self, factor: u64) -> Result<(), Shortfall>
        ensures { Shortening S.recorded S.alike factor self.old result self.new }
    {
        let factor = Thousandths::new(factor)?;
        self.table.falls_short(factor)?;
        self.table.shorten_all(factor);
        Ok(())
    }
}

impl Timetable<Record> {
    // Adds a stream as the last one, if there are fewer than 32.
    pub fn grow(&mut self, stream: Record) -> Result<(), Refusal>
        ensures grown { Grown self.old stream result self.new }
        ensures letter { ⟦<Timetable<Record> as Bank>⟧.LETTER ≡ sporadic.letter }
    {
        self.has_room()?;
        self.table.push(stream);
        Ok(())
    }
}

impl Timetable<OnRaster> {
    // Adds a stream as the last one, if there are fewer than 32 and its phase is below its gap. One function with the other `grow` would have to be told how a stream is made, and with which refusal.
    pub fn grow(&mut self, stream: Record, phase: u64) -> Result<(), Refusal>
        ensures grown { GrownOn self.old stream phase result self.new }
        ensures letter { ⟦<Timetable<OnRaster> as Bank>⟧.LETTER ≡ raster.letter }
    {
        self.has_room()?;
        let timed = OnRaster::new(stream, phase)?;
        self.table.push(timed);
        Ok(())
    }
}
