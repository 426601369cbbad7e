// The engine of one worker: it lets releases in, hands out turns one at a time, and settles them.

#![tactic(auto)]

mod choosing;
mod settling;
mod slip;
mod state;
mod work;

pub use slip::Slip;
pub use state::Engine;
pub use work::Report;
