// The bank: a set of streams behind one interface, and what holds of every bank.

#![tactic(auto)]

ghost use Rattle.std.specs.Prelude.{◌≡◌, ℕ, ◌≤◌, true, false, MatchOption, Some, None};
ghost use Rattle.stream.specs.declared.limits.Record.{Record as Rec};
ghost use Rattle.bank.specs.Accepting.{Accepted};
ghost use Rattle.bank.specs.Kinds.{Kind};
ghost use Rattle.bank.specs.Laws.{Laws};
ghost use Rattle.bank.specs.Questions.{asked, told, counted, spanned};
ghost use Rattle.bank.specs.declared.Question.TheVariants.{Outside};
ghost use Rattle.bank.specs.Rules.{Rules, Whole};
ghost use Rattle.bank.specs.Runs.{AtMost, AtMostToCome};

use stream::{Record, Refusal};

// A signed m of a question to a bank: outside the range in which it is asked, before moment 0, or at m. An Option of an Option would name none of the three.
#[derive(Clone, Copy)]
pub enum Question {
    Outside,
    Before,
    At(u64),
}

// The first and the last m that a bank is asked about.
const EARLIEST: i64 = -65535;

const LATEST: i64 = 1000000;

// The most consecutive moments that a bank is asked about: those from 0 to the last m.
const MOMENTS: u64 = 1000001;

// A signed m is read once, so that no kind has to compute with signs.
impl From<i64> for Question {
    ghost from_gives = { λ m question. question ≡ asked m };

    fn from(m: i64) -> Question {
        if m < EARLIEST || m > LATEST {
            Question::Outside
        } else if m < 0 {
            Question::Before
        } else {
            Question::At(m as u64)
        }
    }
}

// A set of streams numbered from 1. `kind` says what a bank means, and `lawful` that it keeps the rules of every bank.
// Questions change nothing; the acts are to begin at a moment, to tick, and to accept a release of a stream.
pub trait Bank {
    ghost kind: { Kind Self };

    // Each kind of bank has one letter of its own: a number that laws speak of, since they cannot name a constant, and the constant itself.
    ghost LETTER: { ℕ };

    const LETTER: char;

    fn streams(&self) -> u64
        ensures { result ≡ kind.streams self.now };

    fn record_of(&self, stream: u64) -> Option<Record>
        ensures { result ≡ kind.records self.now stream };

    fn count(&self, stream: u64) -> Option<u64>
        ensures { result ≡ counted (kind.records self.now stream) (kind.count self.now stream) };

    fn ceiling(&self, stream: u64, m: i64) -> Option<u64>
        ensures { result ≡ told (kind.records self.now stream) (kind.ceiling self.now stream) (asked m) };

    fn opening(&self, stream: u64, m: i64) -> Option<u64>
        ensures { result ≡ told (kind.records self.now stream) (kind.opening self.now stream) (asked m) };

    fn begin(&mut self, moment: u64)
        ensures { kind.begins self.old moment self.new };

    fn tick(&mut self)
        ensures { kind.ticks self.old self.new };

    fn accept(&mut self, stream: u64) -> Result<(), Refusal>
        ensures { Accepted kind self.old stream result self.new };

    ghost lettered: { LETTER ≡ kind.letter };

    ghost lawful: { Laws kind };
}

// The m of a question about so many consecutive moments: the last of them, counted from 0.
fn last_of(moments: u64) -> Option<i64>
    ensures { MatchOption result (spanned moments ≡ Outside) (λ m. (moments ≤ 1000001) × (asked m ≡ spanned moments)) }
{
    if moments > MOMENTS {
        return None;
    }
    Some(moments as i64 - 1)
}

// The most releases of a stream that can be accepted in so many consecutive moments, whatever the acts from begin on.
#[tactic(auto, using(crate::proofs::Windows::told_bounds))]
pub fn most_accepted<B: Bank>(bank: &B, stream: u64, moments: u64) -> Option<u64>
    ensures value { result ≡ told (B.kind.records bank.now stream) (B.kind.ceiling bank.now stream) (spanned moments) }
    ensures bound { (most : ℕ) → result ≡ Some most → AtMost B.kind bank.now stream moments most }
{
    bank.ceiling(stream, last_of(moments)?)
}

// The most releases of a stream that can still be accepted in so many moments from this one on, whatever the acts.
#[tactic(auto, using(crate::proofs::Windows::told_opens))]
pub fn most_to_come<B: Bank>(bank: &B, stream: u64, moments: u64) -> Option<u64>
    ensures value { result ≡ told (B.kind.records bank.now stream) (B.kind.opening bank.now stream) (spanned moments) }
    ensures bound { (most : ℕ) → result ≡ Some most → AtMostToCome B.kind bank.now stream moments most }
{
    bank.opening(stream, last_of(moments)?)
}

// Whether a stream exists. If so, the rules on ceilings and openings hold of it, said over whole numbers; the rules on the bank as a whole hold in any case. What questions answer and what is refused, the trait says.
pub fn has_stream<B: Bank>(bank: &B, stream: u64) -> bool
    ensures there { result ≡ true → (rec : Rec) × (B.kind.records bank.now stream ≡ Some rec) × Rules B.kind bank.now stream rec }
    ensures absent { result ≡ false → B.kind.records bank.now stream ≡ None }
    ensures whole { Whole B.kind bank.now }
{
    bank.record_of(stream).is_some()
}
