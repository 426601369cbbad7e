// Streams of jobs and what is said of them: a stream's numbers and their limits, the refusals with their numbers, and faults with their places.

#![tactic(auto)]

ghost use Rattle.std.specs.Prelude.{◌≡◌};
ghost use Rattle.stream.specs.Faults.{placed, whole_line};
ghost use Rattle.stream.specs.Refusals.{number, letter};
ghost use Rattle.stream.specs.Rooms.{RoomTold};

mod limits;
mod shown;

pub use limits::Record;

// No plan, table or worker has more streams.
pub const MOST_STREAMS: usize = 32;

// A critical stream is kept through an overrun; the jobs of a background stream are dropped when one begins.
#[derive(Clone, Copy, PartialEq, Eq, Debug)]
pub enum Class {
    Critical,
    Background,
}

// The numbers of a stream as a plan gives them, not yet held to any limit. Budgets are in turns, the others in ticks.
#[derive(Clone, Copy, PartialEq, Eq, Debug)]
pub struct Row {
    pub class: Class,
    // the turns a job has in normal mode
    pub budget: u64,
    // the turns a job is certain to get if an overrun begins
    pub certain: u64,
    // the deadline that the worker keeps in normal mode, so that an overrun finds slack
    pub short: u64,
    pub deadline: u64,
    // the least distance of two releases
    pub gap: u64,
}

// The mode that a demand is computed for. Normal comes before overrun.
#[derive(Clone, Copy, PartialEq, Eq, PartialOrd, Ord, Debug)]
pub enum Phase {
    Normal,
    Overrun,
}

// How near a plan comes to failing at one length of time: the length less the demand of a phase there.
// The fields stand in the order in which points are compared, so that the nearest comes first, then the shorter length, then the normal phase.
#[derive(Clone, Copy, PartialEq, Eq, PartialOrd, Ord)]
pub struct Point {
    pub margin: i64,
    pub length: u64,
    pub phase: Phase,
}

// What the judgment of a bank found: the horizon, how many lengths it looked at, and the point that decided, or that came nearest to failing.
#[derive(Clone, Copy, PartialEq, Eq, Debug)]
pub struct Verdict {
    pub horizon: u64,
    pub lengths: u64,
    pub point: Point,
}

// Why a call refuses. Users see the number (docs/REFUSALS.md).
#[derive(Clone, Copy, PartialEq, Eq, Debug)]
pub enum Refusal {
    OutOfShape,
    TooManyStreams,
    SporadicAfterRaster,
    GapOutOfLimits,
    DeadlineOutOfLimits,
    BudgetOutOfLimits,
    ShortDeadlineOutOfLimits,
    PhaseOutOfLimits,
    NoStream,
    HorizonTooFar,
    DemandExceeded(Verdict),
    MomentTooLate,
    FactorOutOfLimits,
    NoSuchStream,
    TurnOut,
    BackgroundInOverrun,
    NotOpen,
    NoTurnToSettle,
    JobWaits,
    AlreadyNormal,
    Shut,
    LastMoment,
}

// Which part of the package refused.
#[derive(Clone, Copy, PartialEq, Eq, Debug)]
pub enum Layer {
    Text,
    Plan,
    Demand,
    Engine,
}

// A refusal with its place in a text. Lines count from 1, and so do bytes in the layer of text; elsewhere the byte is 0.
#[derive(Clone, Copy, PartialEq, Eq, Debug)]
pub struct Fault {
    pub refusal: Refusal,
    pub layer: Layer,
    pub line: u64,
    pub byte: u64,
}

impl From<Refusal> for u64 {
    ghost from_gives = { λ refusal n. n ≡ number refusal };

    fn from(refusal: Refusal) -> u64 {
        match refusal {
            Refusal::OutOfShape => 1,
            Refusal::TooManyStreams => 2,
            Refusal::SporadicAfterRaster => 3,
            Refusal::GapOutOfLimits => 4,
            Refusal::DeadlineOutOfLimits => 5,
            Refusal::BudgetOutOfLimits => 6,
            Refusal::ShortDeadlineOutOfLimits => 7,
            Refusal::PhaseOutOfLimits => 8,
            Refusal::NoStream => 9,
            Refusal::HorizonTooFar => 10,
            Refusal::DemandExceeded(_) => 11,
            Refusal::MomentTooLate => 12,
            Refusal::FactorOutOfLimits => 13,
            Refusal::NoSuchStream => 14,
            Refusal::TurnOut => 15,
            Refusal::BackgroundInOverrun => 16,
            Refusal::NotOpen => 17,
            Refusal::NoTurnToSettle => 18,
            Refusal::JobWaits => 19,
            Refusal::AlreadyNormal => 20,
            Refusal::Shut => 23,
            Refusal::LastMoment => 24,
        }
    }
}

impl From<Layer> for char {
    ghost from_gives = { λ layer c. c ≡ letter layer };

    fn from(layer: Layer) -> char {
        match layer {
            Layer::Text => 'T',
            Layer::Plan => 'P',
            Layer::Demand => 'D',
            Layer::Engine => 'E',
        }
    }
}

// Refuses a stream more where there are as many as there may be.
pub fn room_for_more(streams: u64) -> Result<(), Refusal>
    ensures { RoomTold streams result }
{
    if streams < MOST_STREAMS as u64 {
        Ok(())
    } else {
        Err(Refusal::TooManyStreams)
    }
}

impl Fault {
    // A refusal at a whole line, so at no byte of it.
    pub fn at_line(refusal: Refusal, layer: Layer, line: u64) -> Fault
        ensures { result ≡ whole_line refusal layer line }
    {
        Fault {
            refusal,
            layer,
            line,
            byte: 0,
        }
    }
}

// Gives a refusal the place of a whole line, so that `?` can carry it on.
pub fn at_line<X>(answer: Result<X, Refusal>, layer: Layer, line: u64) -> Result<X, Fault>
    ensures { result ≡ placed answer layer line }
{
    answer.map_err(|refusal| Fault::at_line(refusal, layer, line))
}
