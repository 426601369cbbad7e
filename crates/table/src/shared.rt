// The table that the banks of this crate share. It keeps no invariant, so that its methods may change one state at a time.

ghost use Rattle.std.specs.Prelude.{◌≡◌, ◌<◌, [], ◌∷◌, ◌++◌, map, length, position, IfSome, Some, None, slice_set};
ghost use Rattle.bank.specs.Accepting.{Accepted};
ghost use Rattle.bank.specs.Questions.{asked, told};
ghost use Rattle.std.specs.Option.{option_map};
ghost use Rattle.std.specs.List.{slice_get};
ghost use Rattle.std.specs.Result.{result_err};
ghost use Rattle.table.specs.Shortening.{AllShortened, first_short, too_short};
ghost use Rattle.table.specs.Tabled.{still};
ghost use Rattle.table.specs.Tables.{Rewaited, SameSize, fresh, state_of, states_of, ticked, waiting};
ghost use Rattle.table.specs.Waits.{after};

use crate::shortening::{Shortfall, Thousandths};
use crate::timed::Timed;
use arrayvec::ArrayVec;
use bank::Question;
use stream::{MOST_STREAMS, Refusal};

// A stream and how many ticks it stays closed.
#[derive(Clone, Copy)]
pub(crate) struct State<S> {
    pub(crate) stream: S,
    pub(crate) wait: u64,
}

// A place that no stream has yet, as an `ArrayVec` wants it.
impl<S: Timed> Default for State<S> {
    fn default() -> State<S> {
        State {
            stream: S::blank(),
            wait: 0,
        }
    }
}

impl<S: Timed> State<S> {
    // How many releases of the stream m moments later at most, if it stays closed for so many ticks.
    pub(crate) fn told(&self, wait: u64, m: i64) -> Option<u64>
        ensures { result ≡ told (Some (S.recorded self.now.stream)) (after wait (S.recorded self.now.stream).row.gap) (asked m) }
    {
        match Question::from(m) {
            Question::Outside => None,
            Question::Before => Some(0),
            Question::At(m) if m < wait => Some(0),
            Question::At(m) => Some((m - wait) / self.stream.record().row().gap + 1),
        }
    }
}

// The states of streams 1, 2 and so on, with a place for each that there may be, so that nothing allocates. It keeps no invariant, so that a method may change one state without owing more; that an act keeps its size is said of each of the five acts, and `Timetable` keeps its bound by it.
#[derive(Drop)]
pub(crate) struct Table<S> {
    states: ArrayVec<State<S>, MOST_STREAMS>,
}

impl<S: Timed> Table<S> {
    pub(crate) fn new() -> Table<S>
        ensures { states_of result ≡ [] }
    {
        Table {
            states: ArrayVec::new(),
        }
    }

    pub(crate) fn streams(&self) -> u64
        ensures { result ≡ length (states_of self.now) }
    {
        self.states.len() as u64
    }

    pub(crate) fn state(&self, stream: u64) -> Option<&State<S>>
        ensures { option_map (λ x. x.now) result ≡ state_of (states_of self.now) stream }
    {
        let at = stream.checked_sub(1)?;
        self.states.get(at as usize)
    }

    // Adds a stream that is open at once.
    pub(crate) fn push(&mut self, stream: S)
        requires { length (states_of self.old) < 32 }
        ensures { states_of self.new ≡ states_of self.old ++ fresh stream ∷ [] }
    {
        self.states.push(State { stream, wait: 0 });
    }

    // The one way to change the wait of a single stream. Places are counted from 0.
    fn set_wait(&mut self, at: usize, wait: u64)
        requires { at < length (states_of self.old) }
        ensures states { (s : _) → slice_get (states_of self.old) at ≡ Some s → states_of self.new ≡ slice_set (states_of self.old) at (waiting wait s) }
        ensures size { SameSize self.old self.new }
    {
        self.states[at].wait = wait;
    }

    // Closes a stream that is open for its gap.
    pub(crate) fn accept(&mut self, stream: u64) -> Result<(), Refusal>
        ensures answer { Accepted (still S.recorded) self.old stream result self.new }
        ensures size { SameSize self.old self.new }
    {
        let state = self.state(stream).ok_or(Refusal::NoSuchStream)?;
        if state.wait > 0 {
            return Err(Refusal::NotOpen);
        }
        let gap = state.stream.record().row().gap;
        self.set_wait((stream - 1) as usize, gap);
        Ok(())
    }

    // Makes each stream wait from a moment on.
    pub(crate) fn begin_all(&mut self, moment: u64)
        ensures states { Rewaited (λ i s wait. S.first_wait moment s wait) (states_of self.old) (states_of self.new) }
        ensures size { SameSize self.old self.new }
    {
        for state in self.states.iter_mut() {
            state.wait = state.stream.first_wait(moment);
        }
    }

    // A moment later. By place, since accept and tick both change a state by one method.
    pub(crate) fn tick_all(&mut self)
        ensures states { states_of self.new ≡ map (ticked S.wait_after) (states_of self.old) }
        ensures size { SameSize self.old self.new }
    {
        for at in 0..self.states.len() {
            let state = self.states[at];
            self.set_wait(at, state.stream.wait_after(state.wait));
        }
    }

    // The place of the first stream whose short deadline would be below its budget.
    fn first_short(&self, factor: Thousandths) -> Option<usize>
        ensures place { result ≡ position (λ s. too_short factor.count (S.recorded s.stream).row) (states_of self.now) }
        ensures bound { IfSome result (λ at. at < 32) }
    {
        self.states
            .iter()
            .position(|state| factor.is_too_short(state.stream.record()))
    }

    // Why the streams cannot be shortened by the factor, if they cannot.
    pub(crate) fn falls_short(&self, factor: Thousandths) -> Result<(), Shortfall>
        ensures { result_err result ≡ first_short S.recorded factor.count (states_of self.now) }
    {
        self.first_short(factor)
            .map_or(Ok(()), |at| Err(Shortfall::Stream(at as u64 + 1)))
    }

    pub(crate) fn shorten_all(&mut self, factor: Thousandths)
        requires { first_short S.recorded factor.count (states_of self.old) ≡ None }
        ensures states { AllShortened S.recorded S.alike factor.count (states_of self.old) (states_of self.new) }
        ensures size { SameSize self.old self.new }
    {
        for state in self.states.iter_mut() {
            let record = factor.shorten_record(state.stream.record());
            state.stream = state.stream.with_record(record);
        }
    }
}
