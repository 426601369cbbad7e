// A plan with the script after it, run; and a plan alone, told by a number.

#![tactic(auto)]

ghost use Rattle.std.specs.Prelude.{IfOk};
ghost use Rattle.script.specs.Checks.{Checked};
ghost use Rattle.script.specs.Replays.{ReplayedUpto};

mod answers;
mod buffer;
mod script;
mod verdicts;

pub use buffer::{LONGEST_TEXT, Unwritten, replay, room_for};
use std::alloc::{AllocError, Global};
use verdicts::{check_plan, number_of};

// What replay writes, in memory of its own; nothing for a text that is longer than any that is replayed.
pub fn replayed(heap: Global, text: &[u8]) -> Result<Vec<u8>, AllocError>
    ensures { IfOk result (λ answers. ReplayedUpto text.now answers.items) }
{
    let Ok(room) = room_for(text) else {
        return Ok(Vec::new(heap));
    };
    let mut buffer = Vec::new(heap);
    // at once, where `from_elem` puts in one byte after another (docs/SPEED.md)
    buffer.resize(room, 0)?;
    let written = replay(text, &mut buffer).unwrap_or(0);
    buffer.truncate(written);
    Ok(buffer)
}

// Whether a plan of stream lines alone may run: 0 if it may, else the number of its refusal.
pub fn check(text: &[u8]) -> i64
    ensures { Checked text.now result }
{
    number_of(check_plan(text))
}
