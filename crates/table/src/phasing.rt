// Streams that are released at the moments of a raster, each at those with its phase modulo its gap.

ghost use Rattle.std.specs.Prelude.{◌<◌};

use stream::Record;

pub(crate) mod timing;

// A stream with its phase.
#[derive(Clone, Copy)]
pub struct OnRaster {
    record: Record,
    phase: u64,
    ghost below: { phase < record.row.gap },
}
