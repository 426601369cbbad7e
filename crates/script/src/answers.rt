// The answers to a text.

ghost use Rattle.script.specs.Replays.{WroteAll};

use crate::script::run_script;
use plan::{Tables, open_plan, tell};
use text::{Answer, Reader};

// Opens the plan of a text and runs the script after it, and says how many bytes are written to the front of the buffer.
pub(crate) fn answer_to(text: &[u8], buffer: &mut [u8]) -> usize
    ensures { WroteAll text.now buffer.old buffer.new result }
{
    let mut reader = Reader::new(text);
    // A fault is told and not carried, so each arm has its own to do.
    match open_plan(&mut reader, Tables::new()) {
        Err(fault) => tell(Answer::Refused(fault), buffer, 0),
        Ok(opening) => {
            let written = tell(Answer::Accepted(opening.verdict), buffer, 0);
            run_script(&mut reader, opening.engine, buffer, written)
        }
    }
}
