// The scan over all lengths up to the horizon.

ghost use Rattle.std.specs.Prelude.{◌≡◌, ◌+◌, ◌<◌, ◌≤◌, MatchResult};
ghost use Rattle.least.specs.Firsts.{FirstLeast};
ghost use Rattle.least.specs.Orders.{by_margin, point_below};
ghost use Rattle.demand.specs.Following.{Onward, Upto};
ghost use Rattle.demand.specs.Verdicts.{InReach, Accepts, Passes, Refuses, Stops, candidates};

use crate::following::Following;
use bank::Bank;
use least::least;
use stream::{Phase, Point, Refusal, Verdict};

// The point of a phase at a length, or the refusal if the demand exceeds it.
fn look<B: Bank>(streams: &mut Following<B>, length: u64, horizon: u64) -> Result<Point, Refusal>
    requires within { length ≤ 1000000 }
    requires upto { Upto B.kind streams.old length }
    ensures cases { MatchResult result (λ point. Passes B.kind streams.old.bank.now streams.old.phase length point) (λ e. Stops B.kind streams.old.bank.now horizon streams.old.phase length e) }
    ensures onward { Onward B.kind streams.old length streams.new }
{
    let point = Point {
        phase: streams.phase,
        length,
        margin: length as i64 - streams.next_demand(length) as i64,
    };
    if point.margin < 0 {
        return Err(Refusal::DemandExceeded(Verdict {
            horizon,
            lengths: length + 1,
            point,
        }));
    }
    Ok(point)
}

// By margin alone, not by the order of points: it only tells where nothing has to be chosen.
fn closer(point: Point, other: Point) -> bool
    ensures { result ≡ by_margin point other }
{
    point.margin < other.margin
}

// Keeps the nearest point, once those of another length are there. Length 0 can be exceeded, but is no candidate. It is kept in place, and written only where something may come nearer: handed through a call at each length, its unused bytes would be copied at each (docs/SPEED.md).
fn keep_nearest(nearest: &mut Option<Point>, length: u64, normal: Point, overrun: Point)
    ensures first { length ≡ 0 → nearest.new ≡ nearest.old }
    ensures later { 0 < length → FirstLeast point_below (candidates nearest.old normal overrun) nearest.new }
{
    if length == 0 {
        return;
    }
    match *nearest {
        None => *nearest = least(&[normal, overrun]),
        Some(best) if closer(best, normal) && closer(best, overrun) => {}
        Some(best) => *nearest = least(&[best, normal, overrun]),
    }
}

// Looks at every length up to the horizon, in order, until a demand exceeds one.
pub(crate) fn scan<B: Bank>(bank: &B, horizon: u64) -> Result<Verdict, Refusal>
    requires { InReach B.kind bank.now horizon }
    ensures { MatchResult result (λ v. Accepts B.kind bank.now v) (λ e. Refuses B.kind bank.now e) }
{
    let mut normals = Following::new(bank, Phase::Normal);
    let mut overruns = Following::new(bank, Phase::Overrun);
    let mut nearest = None;
    for length in 0..horizon + 1 {
        let normal = look(&mut normals, length, horizon)?;
        let overrun = look(&mut overruns, length, horizon)?;
        keep_nearest(&mut nearest, length, normal, overrun);
    }
    match nearest {
        Some(point) => Ok(Verdict {
            horizon,
            lengths: horizon + 1,
            point,
        }),
        None => unreachable(),
    }
}
