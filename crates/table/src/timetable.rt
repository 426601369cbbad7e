// Tables of streams of one kind, and the two kinds there are.

ghost use Rattle.std.specs.Prelude.{◌≤◌, length};
ghost use Rattle.table.specs.Tables.{states_of};

use crate::phasing::OnRaster;
use crate::shared::Table;
use stream::Record;

pub(crate) mod banking;
pub(crate) mod growing;

// At most 32 streams.
#[derive(Drop)]
pub struct Timetable<S> {
    table: Table<S>,
    ghost few: { length (states_of table) ≤ 32 },
}

pub type Sporadic = Timetable<Record>;

pub type Raster = Timetable<OnRaster>;
