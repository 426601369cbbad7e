// What a settled turn leaves of a worker's state.

ghost use Rattle.std.specs.Prelude.{◌≡◌, ◌+◌, ◌≤◌, Some};
ghost use Rattle.turns.specs.Steps.{after_turn, ended, overrun_begun, runner, told_of};
ghost use Rattle.engine.specs.Sound.{Sound};

use stream::Phase;
use turns::{End, Job, Settled, State, Turn, ending};

fn begin_overrun(state: &mut State)
    requires { state.old.tally.dropped ≤ 40000000000000 }
    ensures { state.new ≡ overrun_begun state.old }
{
    state.mode = Phase::Overrun;
    state.tally.dropped += state.jobs.drop_background();
}

fn end_turn(state: &mut State, stream: u64, job: Job, end: End)
    requires { state.old.tally.finished + state.old.tally.cut + state.old.tally.dropped ≤ 40000000000000 }
    ensures { state.new ≡ ended state.old stream job end }
{
    match end {
        End::Going => state.jobs.put(stream, Some(job)),
        End::Finished => {
            state.jobs.put(stream, None);
            state.tally.finished += 1;
        }
        End::Cut => {
            state.jobs.put(stream, None);
            state.tally.cut += 1;
        }
        End::Switch => {
            state.jobs.put(stream, Some(job));
            begin_overrun(state);
        }
    }
}

// Settles the turn that is out, a moment later.
pub(crate) fn settle_turn(state: &mut State, turn: Turn, done: bool) -> Settled
    requires sound { Sound state.old }
    requires out { state.old.turn ≡ Some turn }
    ensures told { result ≡ told_of state.old (runner (Some turn) state.old.jobs) done }
    ensures after { state.new ≡ after_turn state.old (runner (Some turn) state.old.jobs) done }
    ensures sound { Sound state.new }
{
    state.moment += 1;
    state.turn = None;
    // That nobody ran is an answer and no refusal. A function in which `?` could carry both ways to it would be one more to read.
    let Turn::Of(stream) = turn else {
        return Settled::Idle;
    };
    let Some(job) = state.jobs.of(stream) else {
        return Settled::Idle;
    };
    let job = Job {
        units: job.units + 1,
        ..job
    };
    let end = ending(state.mode, job.row, job.units, done);
    end_turn(state, stream, job, end);
    Settled::Ran(stream, end)
}
