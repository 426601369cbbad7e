// Starting what a plan says.

ghost use Rattle.std.specs.Prelude.{◌≡◌, MatchResult};
ghost use Rattle.text.specs.Reader.{bytes_left, line_number};
ghost use Rattle.plan.specs.Openings.{Opened, Unopened, start_layer};
ghost use Rattle.plan.specs.Plans.{rows_in};

use crate::reading::read_plan;
use crate::{PlanBank, Tables};
use engine::Engine;
use stream::{Fault, Layer, Verdict, at_line};
use text::Reader;
use turns::LAST_MOMENT;

// An accepted plan: its verdict, and the engine that runs it.
#[derive(Drop)]
pub struct Opening {
    pub verdict: Verdict,
    pub engine: Engine<PlanBank>,
}

// Who refuses a start.
fn start_layer(moment: u64) -> Layer
    ensures { result ≡ start_layer moment }
{
    if moment > LAST_MOMENT {
        Layer::Engine
    } else {
        Layer::Demand
    }
}

// Reads a plan up to its go line and starts what it says, or finds the first fault in it.
pub fn open_plan(reader: &mut Reader, mut tables: Tables) -> Result<Opening, Fault>
    ensures { MatchResult result (λ o. Opened (bytes_left reader.old) (line_number reader.old) (rows_in tables) o.verdict o.engine.bank o.engine.state (bytes_left reader.new) (line_number reader.new)) (λ fault. Unopened (bytes_left reader.old) (line_number reader.old) (rows_in tables) fault (bytes_left reader.new) (line_number reader.new)) }
{
    let go = read_plan(reader, &mut tables)?;
    // without a go line, the text ends where one is due
    let start = go.ok_or(reader.out_of_shape(1))?;
    let engine = Engine::start(tables.into_bank(), start.moment);
    let verdict = at_line(engine.verdict(), start_layer(start.moment), start.line)?;
    Ok(Opening { verdict, engine })
}
