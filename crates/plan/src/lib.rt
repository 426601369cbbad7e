// A plan: its tables, its lines, and the start that it asks for; and how answers are written.

#![tactic(auto)]

mod answers;
mod opening;
mod reading;
mod tables;

pub use answers::tell;
pub use opening::{Opening, open_plan};
pub use reading::{Start, read_plan};
pub use tables::{PlanBank, Tables};
