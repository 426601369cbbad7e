// The overrun share of one stream with a release in each gap, as it is published: in closed form, where the scan goes from length to length.

ghost use Rattle.std.specs.Prelude.{◌≡◌, ◌≤◌};
ghost use Rattle.demand.specs.Published.{ShareTold, closed, deducted};

use crate::{FARTHEST, slack};
use stream::{Class, Record};

// A stream at a length that is judged.
#[derive(Drop)]
struct At {
    stream: Record,
    length: u64,
    ghost near: { length ≤ 1000000 },
}

impl At {
    // What a carried-over job must have done by then.
    fn deduction(&self) -> u64
        ensures { result ≡ deducted self.now.stream.row self.now.length }
    {
        let row = self.stream.row();
        let slack = slack(&row);
        let rest = self.length % row.gap;
        if slack <= rest && rest < row.deadline {
            (row.budget + slack).saturating_sub(rest)
        } else {
            0
        }
    }

    fn share(&self) -> u64
        ensures { result ≡ closed self.now.stream.row self.now.length }
    {
        let row = self.stream.row();
        match row.class {
            Class::Background => 0,
            Class::Critical => {
                let slack = slack(&row);
                if self.length < slack {
                    return 0;
                }
                let releases = (self.length - slack) / row.gap + 1;
                (releases * row.certain).saturating_sub(self.deduction())
            }
        }
    }
}

// The overrun share of a stream whose ceiling is m / gap + 1, at a length of at most 1,000,000.
#[tactic(auto, using(crate::proofs::Publishing::published_share, crate::proofs::Publishing::by_plateau))]
pub fn sporadic_share(stream: Record, length: u64) -> Option<u64>
    ensures { ShareTold stream.row length result }
{
    if length > FARTHEST {
        return None;
    }
    Some(At { stream, length }.share())
}
