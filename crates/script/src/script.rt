// Running a script, call by call.

ghost use Rattle.text.specs.Reader.{bytes_left, line_number};
ghost use Rattle.script.specs.Performing.{Given, Performed, TurnTaken};
ghost use Rattle.script.specs.Playing.{Wrote};

use bank::Bank;
use engine::Engine;
use plan::tell;
use stream::{Layer, Refusal, at_line};
use text::{Answer, Call, Reader};
use turns::Settled;

// A turn that nobody could have is told by what made its slip void.
fn take_turn<B: Bank>(engine: &mut Engine<B>, done: bool) -> Result<Settled, Refusal>
    ensures { TurnTaken B.kind engine.old.bank engine.old.state done result engine.new.bank engine.new.state }
{
    let slip = engine.pick();
    let void = slip.refusal();
    let settled = engine.settle(slip, done);
    void.map_or(settled, Err)
}

// What a call gives to be told, unless it is refused.
fn call_engine<B: Bank>(engine: &mut Engine<B>, call: Call) -> Result<Answer, Refusal>
    ensures { Given B.kind engine.old.bank engine.old.state call result engine.new.bank engine.new.state }
{
    match call {
        Call::Release(stream) => {
            engine.release(stream)?;
            Ok(Answer::Took(stream))
        }
        Call::Turn(done) => Ok(Answer::Ran(take_turn(engine, done)?)),
        Call::Calm => {
            engine.calm()?;
            Ok(Answer::Calm(engine.moment()))
        }
    }
}

// A refused call is told at its line.
fn perform<B: Bank>(engine: &mut Engine<B>, call: Call, line: u64) -> Answer
    ensures { Performed B.kind engine.old.bank engine.old.state call line result engine.new.bank engine.new.state }
{
    at_line(call_engine(engine, call), Layer::Engine, line).unwrap_or_else(Answer::Refused)
}

// Performs the calls up to the end of the text and then tells the counts, or up to the first fault in the text and tells that. Says how many bytes of the buffer are written then.
pub(crate) fn run_script<B: Bank + Drop>(
    reader: &mut Reader,
    mut engine: Engine<B>,
    buffer: &mut [u8],
    mut written: usize,
) -> usize
    ensures { Wrote B.kind (bytes_left reader.old) (line_number reader.old) engine.bank engine.state buffer.old written buffer.new result }
{
    while !reader.at_end() {
        let line = reader.line_number();
        // A fault is told and not carried, and ends the script.
        match reader.next::<Call>() {
            Ok(call) => written = tell(perform(&mut engine, call, line), buffer, written),
            Err(fault) => return tell(Answer::Refused(fault), buffer, written),
        }
    }
    tell(Answer::Total(engine.report().counts), buffer, written)
}
