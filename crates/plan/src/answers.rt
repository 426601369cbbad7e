// Writing answers.

ghost use Rattle.std.specs.Prelude.{◌≡◌};
ghost use Rattle.plan.specs.Written.{Told, line_of};

use text::Answer;

// Writes an answer in a line of its own behind so many bytes of a buffer, if it has room there; and says how many bytes are written then.
pub fn tell(answer: Answer, buffer: &mut [u8], written: usize) -> usize
    ensures { Told buffer.old written (line_of answer) buffer.new result }
{
    let line = answer.line();
    if buffer.len().saturating_sub(written) < line.len() {
        return written;
    }
    let end = written + line.len();
    buffer[written..end].copy_from_slice(line.as_bytes());
    end
}
