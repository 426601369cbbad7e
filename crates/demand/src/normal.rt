// The normal share of a stream, from length to length and at one length alone.

ghost use Rattle.std.specs.Prelude.{◌≡◌, ◌^◌, ◌<◌, ◌≤◌};
ghost use Rattle.stream.specs.declared.Phase.TheVariants.{Normal};
ghost use Rattle.demand.specs.Asking.{Renews};
ghost use Rattle.demand.specs.Demands.{asks, demand};

use crate::asked::Asked;
use crate::watch::{Steady, Watch};
use bank::Bank;

// What is known once a stream is asked for its normal share: each job that is due by its short deadline asks for the budget.
pub(crate) fn normal_watch<B: Bank>(stream: &Asked<B>) -> Watch
    requires { stream.now.phase ≡ Normal }
    ensures { Renews stream.now Normal result }
{
    let row = stream.entry.row;
    if stream.length < row.short {
        return Watch::idle(stream.seen, row.short);
    }
    let plateau = stream.plateau(row.short);
    Watch {
        plateau,
        steady: Steady {
            share: plateau.level * row.budget,
            end: row.short + plateau.end,
        },
    }
}

// The normal share of a stream by its number, with nothing known of the lengths before.
fn normal_share_alone<B: Bank>(bank: &B, stream: u64, length: u64) -> u64
    requires { length ≤ 1000000 }
    ensures value { result ≡ asks B.kind bank.now Normal length stream }
    ensures bound { result < 2 ^ 37 }
{
    let Some(record) = bank.record_of(stream) else {
        return 0;
    };
    let row = record.row();
    if length < row.short {
        return 0;
    }
    let level = bank
        .ceiling(stream, (length - row.short) as i64)
        .unwrap_or(0);
    level * row.budget
}

// The normal demand, with nothing known of the lengths before.
#[tactic(auto, using(crate::proofs::Totals::total_before, crate::proofs::Totals::total_none))]
pub(crate) fn normal_demand_alone<B: Bank>(bank: &B, length: u64) -> u64
    requires { length ≤ 1000000 }
    ensures { result ≡ demand B.kind bank.now Normal length }
{
    let mut sum = 0;
    // By number, as the load.
    for stream in 1..bank.streams() + 1 {
        sum += normal_share_alone(bank, stream, length);
    }
    sum
}
