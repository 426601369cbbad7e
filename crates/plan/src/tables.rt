// The streams of a plan, in the tables that its bank joins.

ghost use Rattle.std.specs.Prelude.{◌≡◌};
ghost use Rattle.stream.specs.Rooms.{RoomTold};
ghost use Rattle.plan.specs.Plans.{AddedRaster, AddedSporadic, no_rows, rows_in, size, tables_of};

use bank::Bank;
use join::Joined;
use stream::{Record, Refusal, Row, room_for_more};
use table::{Raster, Sporadic};

// A plan is judged as one bank.
pub type PlanBank = Joined<Sporadic, Raster>;

// The streams of a plan as far as it is read: the sporadic ones, then those on a raster.
#[derive(Drop)]
pub struct Tables {
    sporadic: Sporadic,
    raster: Raster,
}

impl Tables {
    // Kept out of line, where the compiler copies the tables less often on their way (docs/SPEED.md).
    #[inline(never)]
    pub fn new() -> Tables
        ensures { rows_in result ≡ no_rows }
    {
        Tables {
            sporadic: Sporadic::new(),
            raster: Raster::new(),
        }
    }

    pub fn into_bank(self) -> PlanBank
        ensures { tables_of result ≡ self }
    {
        let Tables { sporadic, raster } = self;
        Joined::new(sporadic, raster)
    }

    // Whether a stream more has a place.
    fn has_room(&self) -> Result<(), Refusal>
        ensures { RoomTold (size (rows_in self.now)) result }
    {
        room_for_more(self.sporadic.streams() + self.raster.streams())
    }

    // A sporadic stream more, unless there are 32 streams already, one on a raster came before, or its numbers break a limit.
    pub(crate) fn add_sporadic(&mut self, row: Row) -> Result<(), Refusal>
        ensures { AddedSporadic (rows_in self.old) row result (rows_in self.new) }
    {
        self.has_room()?;
        if self.raster.streams() > 0 {
            return Err(Refusal::SporadicAfterRaster);
        }
        let record = Record::new(row)?;
        self.sporadic.grow(record)
    }

    // A stream on a raster more, unless there are 32 streams already or its numbers break a limit. Not one function with the one before, which refuses by the order of lines between those two.
    pub(crate) fn add_raster(&mut self, row: Row, phase: u64) -> Result<(), Refusal>
        ensures { AddedRaster (rows_in self.old) row phase result (rows_in self.new) }
    {
        self.has_room()?;
        let record = Record::new(row)?;
        self.raster.grow(record, phase)
    }
}
