// Demand at a length of time, and the admission of a bank by it: it may run if no length is exceeded by the normal or the overrun demand.

#![tactic(auto)]

ghost use Rattle.std.specs.Prelude.{◌≡◌, ◌≤◌, MatchResult};
ghost use Rattle.stream.specs.declared.Phase.TheVariants.{Overrun};
ghost use Rattle.demand.specs.Demands.{demand};
ghost use Rattle.demand.specs.Shares.{slack};
ghost use Rattle.demand.specs.Verdicts.{Accepts, Decided, DemandTold, Judged, Refuses};

use bank::Bank;
use following::Following;
use horizon::common_multiple;
use normal::normal_demand_alone;
use scan::scan;
use stream::{MOST_STREAMS, Phase, Refusal, Row, Verdict};

mod asked;
mod entry;
mod following;
mod horizon;
mod loads;
mod normal;
mod overrun;
mod published;
mod scan;
mod watch;

pub use loads::load;
pub use published::sporadic_share;

// No horizon may lie farther.
const FARTHEST: u64 = 1000000;

// The ticks between the short deadline and the deadline.
fn slack(row: &Row) -> u64
    ensures { result ≡ slack row.now }
{
    row.deadline.saturating_sub(row.short)
}

// Whether a bank may run, whatever comes: refused for no stream, more than 32, a horizon above 1,000,000, or the first length that a demand exceeds. No length above the horizon is looked at, since none is worse.
pub fn admit<B: Bank>(bank: &B) -> Result<Verdict, Refusal>
    ensures judged { Judged B.kind bank.now result }
    ensures decided { Decided B.kind bank.now result }
{
    judge(bank)
}

// What `admit` answers, by what was looked at: the lengths up to the horizon.
fn judge<B: Bank>(bank: &B) -> Result<Verdict, Refusal>
    ensures { MatchResult result (λ v. Accepts B.kind bank.now v) (λ e. Refuses B.kind bank.now e) }
{
    let streams = bank.streams();
    if streams == 0 {
        return Err(Refusal::NoStream);
    }
    if streams > MOST_STREAMS as u64 {
        return Err(Refusal::TooManyStreams);
    }
    let horizon = common_multiple(bank)?;
    scan(bank, horizon)
}

// The demand of a phase at a length of at most 1,000,000, for at most 32 streams: in normal mode by one ceiling of each stream, in an overrun by way of all lengths before it.
pub fn demand_at<B: Bank>(bank: &B, phase: Phase, length: u64) -> Option<u64>
    ensures { DemandTold B.kind bank.now phase length result }
{
    if bank.streams() > MOST_STREAMS as u64 || length > FARTHEST {
        return None;
    }
    Some(match phase {
        Phase::Normal => normal_demand_alone(bank, length),
        Phase::Overrun => overrun_demand_after(bank, length),
    })
}

// The overrun demand, by way of all lengths before: a share takes the start of its stream's plateau, which no single question tells.
fn overrun_demand_after<B: Bank>(bank: &B, length: u64) -> u64
    requires few { B.kind.streams bank.now ≤ 32 }
    requires within { length ≤ 1000000 }
    ensures { result ≡ demand B.kind bank.now Overrun length }
{
    let mut streams = Following::new(bank, Phase::Overrun);
    for before in 0..length {
        streams.next_demand(before);
    }
    streams.next_demand(length)
}
