// Whose turn is next.

ghost use Rattle.std.specs.Prelude.{◌≡◌, ◌≤◌};
ghost use Rattle.turns.specs.Steps.{Next, key, last_moment, with_turn};
ghost use Rattle.engine.specs.Sound.{Placed, Sound};

use arrayvec::ArrayVec;
use least::least;
use stream::{MOST_STREAMS, Phase};
use turns::{Job, State, Turn};

// What jobs are chosen by: the deadline in a mode, then the stream's number.
fn key_of(mode: Phase, stream: u64, job: Job) -> (u64, u64)
    requires since { job.since ≤ last_moment }
    requires short { job.row.short ≤ 65535 }
    requires deadline { job.row.deadline ≤ 65535 }
    ensures { result ≡ key mode stream job }
{
    let term = match mode {
        Phase::Normal => job.row.short,
        Phase::Overrun => job.row.deadline,
    };
    (job.since + term, stream)
}

// The job with the least key, or nobody if no job waits. They are chosen from by the one scan of this project, over a slice of keys, and not by `filter_map` with `min`. Collecting the keys can fail where the list is full, which it never is; so they are pushed.
pub(crate) fn next_turn(state: &State) -> Turn
    requires early { state.now.moment ≤ last_moment }
    requires sound { Sound state.now }
    ensures next { Next state.now result }
    ensures placed { Placed (with_turn state.now result) }
{
    let mut keys = ArrayVec::<(u64, u64), MOST_STREAMS>::new();
    for (at, place) in state.jobs.places().iter().enumerate() {
        if let Some(job) = place {
            keys.push(key_of(state.mode, at as u64 + 1, *job));
        }
    }
    least(keys.as_slice()).map_or(Turn::Idle, |(_, stream)| Turn::Of(stream))
}
