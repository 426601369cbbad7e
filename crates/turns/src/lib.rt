// One worker, turn by turn, beside its bank: its plain state, what each call makes of it, the ledger of its jobs, and the law that none is late or lost.

#![tactic(auto)]

ghost use Rattle.std.specs.Prelude.{◌≡◌};
ghost use Rattle.turns.specs.Jobs.{ending};
ghost use Rattle.turns.specs.Law.{NoneLate};
ghost use Rattle.turns.specs.Steps.{Started, fresh};

use bank::Bank;
use demand::admit;
use stream::{Class, Phase, Refusal, Row, Verdict};

mod jobs;
mod shown;

pub use jobs::Jobs;

// Who has a turn. No Option, since a turn may be out or not, and idle is a turn that is out.
#[derive(Clone, Copy)]
pub enum Turn {
    Idle,
    Of(u64),
}

// A job that waits for its turns. It knows its stream's numbers, so that nobody has to ask the bank for them again.
#[derive(Clone, Copy)]
pub struct Job {
    pub row: Row,
    // the moment of its release
    pub since: u64,
    // the turns it has had
    pub units: u64,
}

// What became of a job after a turn. A job that needs more than its normal budget, and is certain to get it, switches the worker to overrun.
#[derive(Clone, Copy, PartialEq, Eq, Debug)]
pub enum End {
    Going,
    Finished,
    Cut,
    Switch,
}

// Whose turn was settled, and how it ended. A type of its own, since it is printed.
#[derive(Clone, Copy, PartialEq, Eq, Debug)]
pub enum Settled {
    Idle,
    Ran(u64, End),
}

// How many jobs were accepted, and how many of them ended in which way.
#[derive(Clone, Copy, Default)]
pub struct Tally {
    pub accepted: u64,
    pub finished: u64,
    pub cut: u64,
    pub dropped: u64,
}

// What became of the jobs. Each accepted job is counted once more, as finished, cut, dropped or waiting. Five numbers, as users read them, and no tally with a number beside it.
#[derive(Clone, Copy, PartialEq, Eq, Debug)]
pub struct Counts {
    pub accepted: u64,
    pub finished: u64,
    pub cut: u64,
    pub dropped: u64,
    pub waiting: u64,
}

// What a worker knows beside its bank. It is shut if its bank was not admitted.
#[derive(Clone, Copy)]
pub struct State {
    pub moment: u64,
    pub mode: Phase,
    pub verdict: Result<Verdict, Refusal>,
    // the turn that is out
    pub turn: Option<Turn>,
    pub jobs: Jobs,
    pub tally: Tally,
}

// The last moment at which a worker may begin, and from which it hands out no turn any more.
pub const LAST_MOMENT: u64 = 1000000000000;

// How a turn ends for a job that has now had so many units: by the mode, the class, the budget and what is reported.
pub fn ending(mode: Phase, row: Row, units: u64, done: bool) -> End
    ensures { result ≡ ending mode row units done }
{
    match (mode, row.class, done) {
        (_, _, true) => End::Finished,
        (Phase::Normal, _, false) if units != row.budget => End::Going,
        (Phase::Normal, Class::Critical, false) if row.budget < row.certain => End::Switch,
        (Phase::Normal, _, false) => End::Cut,
        (Phase::Overrun, _, false) if units != row.certain => End::Going,
        (Phase::Overrun, _, false) => End::Cut,
    }
}

impl State {
    // No job yet, and no turn out.
    pub fn new(moment: u64, verdict: Result<Verdict, Refusal>) -> State
        ensures { result ≡ fresh moment verdict }
    {
        State {
            moment,
            mode: Phase::Normal,
            verdict,
            turn: None,
            jobs: Jobs::none(),
            tally: Tally::default(),
        }
    }
}

// Begins a bank at a moment and judges it. Whatever is then called, in whatever order, no job is late and none is lost, by the ledger of those calls.
pub fn begin<B: Bank>(bank: &mut B, moment: u64) -> State
    ensures started { Started B.kind bank.old moment bank.new result }
    ensures promise { NoneLate B.kind bank.new result }
{
    if moment > LAST_MOMENT {
        return State::new(moment, Err(Refusal::MomentTooLate));
    }
    bank.begin(moment);
    let verdict = admit(bank);
    State::new(moment, verdict)
}
