// Any bank behind a gate that shuts and opens as its owner plans.
// Its openings are only bounded: what it means says nothing of when the gate shuts or opens.

#![tactic(auto)]

ghost use Rattle.std.specs.Prelude.{◌≡◌, ℕ, Some, refl};
ghost use Rattle.bank.specs.Questions.{told, spanned};
ghost use Rattle.bank.specs.Runs.{AtMost};
ghost use Rattle.table.specs.Sporadics.{sporadic};
ghost use Rattle.gated.specs.Gates.{gated};
ghost use Rattle.gated.specs.GatesLemmas.{gated_lawful};

use bank::{Bank, most_accepted};
use stream::{Record, Refusal};
use table::Sporadic;

// Open, and for so many ticks by now, or shut. No Option, whose `None` would not say that the gate is shut.
#[derive(Clone, Copy)]
enum Gate {
    Open(u64),
    Shut,
}

impl Gate {
    // A tick later, where the gate is shut for one tick after each `every` ticks; with 0 at every other tick, since a tick opens a shut gate.
    fn ticked(self, every: u64) -> Gate {
        match self {
            Gate::Open(passed) if passed < every => Gate::Open(passed + 1),
            Gate::Open(_) => Gate::Shut,
            Gate::Shut => Gate::Open(1),
        }
    }
}

// While the gate is shut no release is accepted. It is shut for one tick after each `every` ticks (where that is 0, at every other tick), and never where there is no `every`.
#[derive(Drop)]
pub struct Gated<B> {
    inner: B,
    gate: Gate,
    every: Option<u64>,
}

impl<B: Bank> Gated<B> {
    // The gate is open at first.
    pub fn new(inner: B, every: Option<u64>) -> Self
        ensures inner { result.inner ≡ inner }
        ensures gate { result.gate ≡ Gate.Open 0 }
        ensures every { result.every ≡ every }
    {
        Self {
            inner,
            gate: Gate::Open(0),
            every,
        }
    }

    // The owner's plan. Any other would do, since only the bank behind the gate has to stay as it was.
    fn move_gate(&mut self)
        ensures { self.new.inner ≡ self.old.inner }
    {
        if let Some(every) = self.every {
            self.gate = self.gate.ticked(every);
        }
    }
}

impl<B: Bank> Bank for Gated<B> {
    ghost kind = { gated B.Bank.kind };

    ghost LETTER = { 71 };

    const LETTER: char = 'G';

    ghost lettered = { refl };

    ghost lawful = { gated_lawful B.Bank.kind B.Bank.lawful };

    fn streams(&self) -> u64 {
        self.inner.streams()
    }

    fn record_of(&self, stream: u64) -> Option<Record> {
        self.inner.record_of(stream)
    }

    fn count(&self, stream: u64) -> Option<u64> {
        self.inner.count(stream)
    }

    fn ceiling(&self, stream: u64, m: i64) -> Option<u64> {
        self.inner.ceiling(stream, m)
    }

    fn opening(&self, stream: u64, m: i64) -> Option<u64> {
        match self.gate {
            Gate::Shut if m == 0 => self.inner.record_of(stream).map(|_| 0),
            _ => self.inner.opening(stream, m),
        }
    }

    fn begin(&mut self, moment: u64) {
        self.inner.begin(moment);
        self.gate = Gate::Open(0);
    }

    fn tick(&mut self) {
        self.inner.tick();
        self.move_gate();
    }

    fn accept(&mut self, stream: u64) -> Result<(), Refusal> {
        match self.gate {
            Gate::Shut => {
                self.inner.record_of(stream).ok_or(Refusal::NoSuchStream)?;
                Err(Refusal::NotOpen)
            }
            Gate::Open(_) => self.inner.accept(stream),
        }
    }
}

// A gate before sporadic streams is a bank like any other, and so are its bounds: they hold whenever the gate shuts.
pub fn most_let_through(gate: &Gated<Sporadic>, stream: u64, moments: u64) -> Option<u64>
    ensures value { result ≡ told ((gated sporadic).records gate.now stream) ((gated sporadic).ceiling gate.now stream) (spanned moments) }
    ensures bound { (most : ℕ) → result ≡ Some most → AtMost (gated sporadic) gate.now stream moments most }
{
    most_accepted(gate, stream, moments)
}

#[cfg(test)]
mod tests {
    use crate::Gated;
    use bank::Bank;
    use std::test::Fail;
    use stream::{Class, Record, Row};
    use table::Sporadic;

    const BRISK: Row = Row {
        class: Class::Critical,
        budget: 1,
        certain: 1,
        short: 1,
        deadline: 1,
        gap: 1,
    };

    // No clause says when a gate moves.
    #[test]
    fn the_ticks_at_which_a_gate_is_shut(rt: HostRuntime) -> Result<(), Fail> {
        let cases = [
            (Some(0u64), [1u64, 3, 5, 7, 9, 11].as_slice()),
            (Some(1), &[2, 4, 6, 8, 10, 12]),
            (Some(2), &[3, 6, 9, 12]),
            (Some(3), &[4, 8, 12]),
            (None, &[]),
        ];
        for (every, shut) in cases {
            let mut bank = Sporadic::new();
            bank.grow(Record::new(BRISK)?)?;
            let mut gate = Gated::new(bank, every);
            gate.begin(0);
            for tick in 1..=12u64 {
                gate.tick();
                assert_eq!(rt;
                    gate.opening(1, 0) == Some(0),
                    shut.contains(&tick),
                    "{every:?} at {tick}"
                );
            }
        }
        Ok(())
    }
}
