// The calls of an engine. Each gives exactly its step of a run.

ghost use Rattle.std.specs.Prelude.{◌≡◌, ◌&&◌, true, false, is_some, Some, None, MatchResult};
ghost use Rattle.stream.specs.declared.Refusal.TheVariants.{Shut, TurnOut};
ghost use Rattle.turns.specs.Jobs.{background};
ghost use Rattle.turns.specs.Law.{NoneLate};
ghost use Rattle.turns.specs.Steps.{Calmed, Picked, Released, Started, TurnSettled, in_overrun, is_shut};
ghost use Rattle.engine.specs.Reports.{counts_of};

use crate::choosing::next_turn;
use crate::settling::settle_turn;
use crate::{Engine, Report, Slip};
use bank::Bank;
use stream::{Class, MOST_STREAMS, Phase, Refusal, Verdict};
use turns::{Counts, Job, LAST_MOMENT, Settled, Tally, begin};

impl<B: Bank> Engine<B> {
    // Begins the bank at a moment and judges it: the engine is open, or shut by the refusal. Whatever is then called, in whatever order, no job is late and none is lost, by the ledger of those calls.
    pub fn start(mut bank: B, moment: u64) -> Engine<B>
        ensures started { Started B.kind bank moment result.bank result.state }
        ensures promise { NoneLate B.kind result.bank result.state }
    {
        let state = begin(&mut bank, moment);
        Engine { bank, state }
    }

    // What the judgment of the bank said; an engine whose bank was refused is shut.
    pub fn verdict(&self) -> Result<Verdict, Refusal>
        ensures { result ≡ self.now.state.verdict }
    {
        self.state.verdict
    }

    // A shut engine refuses release, pick and calm.
    fn not_shut(&self) -> Result<(), Refusal>
        ensures { MatchResult result (λ _. is_shut self.now.state.verdict ≡ false) (λ e. (is_shut self.now.state.verdict ≡ true) × (e ≡ Shut)) }
    {
        self.verdict().map(|_| ()).map_err(|_| Refusal::Shut)
    }

    // While a turn is out only settle is let in.
    fn no_turn_out(&self) -> Result<(), Refusal>
        ensures { MatchResult result (λ _. is_some self.now.state.turn ≡ false) (λ e. (is_some self.now.state.turn ≡ true) × (e ≡ TurnOut)) }
    {
        self.state.turn.map_or(Ok(()), |_| Err(Refusal::TurnOut))
    }

    // Whether releases of a class are refused in this mode.
    fn shuns(&self, class: Class) -> bool
        ensures { result ≡ (background class && in_overrun self.now.state.mode) }
    {
        class == Class::Background && self.state.mode == Phase::Overrun
    }

    // Lets a job of a stream in, if the bank does.
    pub fn release(&mut self, stream: u64) -> Result<(), Refusal>
        ensures { Released B.kind self.old.bank self.old.state stream result self.new.bank self.new.state }
    {
        self.not_shut()?;
        let record = self.bank.record_of(stream).ok_or(Refusal::NoSuchStream)?;
        if stream > MOST_STREAMS as u64 {
            return Err(Refusal::NoSuchStream);
        }
        self.no_turn_out()?;
        let row = record.row();
        if self.shuns(row.class) {
            return Err(Refusal::BackgroundInOverrun);
        }
        if self.state.jobs.of(stream).is_some() {
            return Err(Refusal::NotOpen);
        }
        self.bank.accept(stream)?;
        let job = Job {
            row,
            since: self.moment(),
            units: 0,
        };
        self.state.jobs.put(stream, Some(job));
        self.state.tally.accepted += 1;
        Ok(())
    }

    // Gives the next turn out, if one can be. That the bank stays, pick and calm promise to their callers, and pick has it from here; no type says it where the bank is within reach.
    fn hand_out(&mut self) -> Result<(), Refusal>
        ensures picked { MatchResult result (λ _. Picked self.old.state None self.new.state) (λ e. Picked self.old.state (Some e) self.new.state) }
        ensures bank { self.new.bank ≡ self.old.bank }
    {
        self.not_shut()?;
        self.no_turn_out()?;
        if self.moment() >= LAST_MOMENT {
            return Err(Refusal::LastMoment);
        }
        let turn = next_turn(&self.state);
        self.state.turn = Some(turn);
        Ok(())
    }

    // Hands out a turn to the job with the least deadline, then the least stream number, or to nobody. One settles the slip.
    pub fn pick(&mut self) -> Slip
        ensures picked { Picked self.old.state result.void self.new.state }
        ensures bank { self.new.bank ≡ self.old.bank }
    {
        Slip {
            void: self.hand_out().err(),
        }
    }

    // Settles the turn that is out: done or not. The slip is spent; the engine itself knows whose turn it is.
    pub fn settle(&mut self, slip: Slip, done: bool) -> Result<Settled, Refusal>
        ensures { TurnSettled B.kind self.old.bank self.old.state slip.void done result self.new.bank self.new.state }
    {
        let Slip { void } = slip;
        if void.is_some() {
            return Err(Refusal::NoTurnToSettle);
        }
        let turn = self.state.turn.ok_or(Refusal::NoTurnToSettle)?;
        self.bank.tick();
        Ok(settle_turn(&mut self.state, turn, done))
    }

    // Returns to normal mode, once no job waits.
    pub fn calm(&mut self) -> Result<(), Refusal>
        ensures calmed { Calmed self.old.state result self.new.state }
        ensures bank { self.new.bank ≡ self.old.bank }
    {
        self.not_shut()?;
        self.no_turn_out()?;
        if self.state.mode == Phase::Normal {
            return Err(Refusal::AlreadyNormal);
        }
        if self.state.jobs.waiting() > 0 {
            return Err(Refusal::JobWaits);
        }
        self.state.mode = Phase::Normal;
        Ok(())
    }

    // The moment that the next turn begins at.
    pub fn moment(&self) -> u64
        ensures { result ≡ self.now.state.moment }
    {
        self.state.moment
    }

    // Takes the engine up, and gives its counts, the bank and the bank's letter.
    pub fn report(self) -> Report<B>
        ensures counts { result.counts ≡ counts_of self.state }
        ensures bank { result.bank ≡ self.bank }
        ensures letter { result.letter ≡ B.kind.letter }
    {
        let Engine { bank, state } = self;
        let Tally {
            accepted,
            finished,
            cut,
            dropped,
        } = state.tally;
        let counts = Counts {
            accepted,
            finished,
            cut,
            dropped,
            waiting: state.jobs.waiting(),
        };
        Report {
            counts,
            bank,
            letter: B::LETTER,
        }
    }
}
