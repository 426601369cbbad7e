// The overrun share of a stream.

ghost use Rattle.std.specs.Prelude.{◌≡◌, ◌-◌, ◌*◌, ◌^◌, ◌<◌, ◌≤◌};
ghost use Rattle.stream.specs.declared.Class.TheVariants.{Critical};
ghost use Rattle.stream.specs.declared.Phase.TheVariants.{Overrun};
ghost use Rattle.demand.specs.Asking.{Renews};
ghost use Rattle.demand.specs.Shares.{slack};

use crate::asked::Asked;
use crate::watch::{Steady, Watch};
use crate::{FARTHEST, slack};
use bank::Bank;
use stream::{Class, Row};

// What all jobs due ask for, less what a carried-over job must have done by then.
fn less_done(row: &Row, level: u64, since: u64) -> u64
    requires { level * row.now.certain < 2 ^ 37 }
    ensures { result ≡ level * row.now.certain - (row.now.budget - since) }
{
    let left = row.budget.saturating_sub(since);
    (level * row.certain).saturating_sub(left)
}

// What is known once a critical stream is asked for its overrun share, from its slack on. Of all times that a carried-over job may have left, the worst is the longest on the plateau, so no other is tried. While that job does its budget, the share grows at each length.
fn critical_watch<B: Bank>(stream: &Asked<B>) -> Watch
    requires phase { stream.now.phase ≡ Overrun }
    requires critical { stream.now.entry.now.row.class ≡ Critical }
    requires late { slack stream.now.entry.now.row ≤ stream.now.length }
    ensures { Renews stream.now Overrun result }
{
    let row = &stream.entry.row;
    let slack = slack(row);
    let plateau = stream.plateau(slack);
    let since = stream.length - slack - plateau.start;
    let end = if since < row.budget {
        stream.length + 1
    } else {
        slack + plateau.end
    };
    Watch {
        plateau,
        steady: Steady {
            share: less_done(row, plateau.level, since),
            end,
        },
    }
}

// What is known once a stream is asked for its overrun share: a background stream has none at any length that is looked at, and a critical one has none below its slack. An end past all lengths serves like any other, so no Option.
pub(crate) fn overrun_watch<B: Bank>(stream: &Asked<B>) -> Watch
    requires { stream.now.phase ≡ Overrun }
    ensures { Renews stream.now Overrun result }
{
    let row = &stream.entry.row;
    let free = match row.class {
        Class::Background => FARTHEST + 1,
        Class::Critical => slack(row),
    };
    if stream.length < free {
        return Watch::idle(stream.seen, free);
    }
    critical_watch(stream)
}
