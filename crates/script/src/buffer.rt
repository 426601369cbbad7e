// Answers into a buffer that the caller brings.

ghost use Rattle.std.specs.Prelude.{◌≡◌, ◌≤◌, length};
ghost use Rattle.script.specs.Buffers.{Filled, RoomTold, unwritten_number};

use crate::answers::answer_to;

// The longest text that is replayed, in bytes.
pub const LONGEST_TEXT: u64 = 65536;

// No answer has more bytes than this in its line.
const LONGEST_LINE: usize = 80;

// Why nothing was written.
#[derive(Clone, Copy, PartialEq, Eq, Debug)]
pub enum Unwritten {
    TextTooLong,
    BufferTooShort,
}

// The room that the answers to a text need: a line for each newline, and two more.
pub fn room_for(text: &[u8]) -> Result<usize, Unwritten>
    ensures { RoomTold text.now result }
{
    if text.len() as u64 > LONGEST_TEXT {
        return Err(Unwritten::TextTooLong);
    }
    let newlines = text.iter().filter(|byte| **byte == b'\n').count();
    Ok(LONGEST_LINE * (newlines + 2))
}

// Reads a plan, judges it and runs the script after it. Writes the answers to the front of a buffer, one to a line, and says how many bytes that is.
pub fn replay(text: &[u8], buffer: &mut [u8]) -> Result<usize, Unwritten>
    ensures { Filled text.now buffer.old result buffer.new }
{
    if buffer.len() < room_for(text)? {
        return Err(Unwritten::BufferTooShort);
    }
    Ok(answer_to(text, buffer))
}

// As C is told it: a number below 0, since the bytes written are at least 0.
impl From<Unwritten> for i64 {
    ghost from_gives = { λ why number. number ≡ unwritten_number why };

    fn from(why: Unwritten) -> i64 {
        match why {
            Unwritten::TextTooLong => -22,
            Unwritten::BufferTooShort => -21,
        }
    }
}
