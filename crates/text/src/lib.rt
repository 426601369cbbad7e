// Bracket lines: the answers that are written, and the plans and scripts that are read.

#![tactic(auto)]

mod answer;
mod call;
mod cursor;
mod from_line;
mod line;
mod reader;

pub use answer::Answer;
pub use call::Call;
pub use from_line::FromLine;
pub use line::Line;
pub use reader::Reader;
pub use turns::Counts;
