// What a line of a plan says.

use stream::Row;

#[derive(Clone, Copy, PartialEq, Eq, Debug)]
pub enum Line {
    // a stream whose releases keep a least distance
    Sporadic(Row),
    // a stream whose releases lie on a raster of moments, with its phase
    Raster(Row, u64),
    // the plan ends, and a run would start at this moment
    Go(u64),
}
