// Banks over a table of streams, each with the ticks for which it stays closed.

#![tactic(auto)]

mod phasing;
mod shared;
mod shortening;
mod spacing;
mod timed;
mod timetable;

pub use shortening::Shortfall;
pub use timetable::{Raster, Sporadic};
