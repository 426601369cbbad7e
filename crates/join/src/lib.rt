// Any two banks as one, the left one's streams first.

#![tactic(auto)]

ghost use Rattle.std.specs.Prelude.{◌≡◌, refl};
ghost use Rattle.join.specs.Joins.{joined, place};
ghost use Rattle.join.specs.JoinsLemmas.{joined_lawful};

use bank::Bank;
use either::{Either, Left, Right};
use stream::{MOST_STREAMS, Record, Refusal};

// No bank has more streams than this: one more than are ever admitted, so that too many are seen.
const MOST: u64 = MOST_STREAMS as u64 + 1;

// Two banks by value. A join of joins is a bank like any other.
#[derive(Drop)]
pub struct Joined<L, R> {
    left: L,
    right: R,
}

impl<L: Bank, R: Bank> Joined<L, R> {
    pub fn new(left: L, right: R) -> Self
        ensures left { result.left ≡ left }
        ensures right { result.right ≡ right }
    {
        Self { left, right }
    }

    // Takes the join apart again.
    pub fn parts(self) -> (L, R)
        ensures left { result.0 ≡ self.left }
        ensures right { result.1 ≡ self.right }
    {
        let Joined { left, right } = self;
        (left, right)
    }

    // Which part has a stream, and the stream's number in that part.
    fn route(&self, stream: u64) -> Option<Either<u64, u64>>
        ensures { result ≡ place L.Bank.kind self.now stream }
    {
        let before = self.left.streams();
        if stream <= before {
            Some(Left(stream))
        } else if stream <= MOST {
            Some(Right(stream - before))
        } else {
            None
        }
    }
}

impl<L: Bank, R: Bank> Bank for Joined<L, R> {
    ghost kind = { joined L.Bank.kind R.Bank.kind };

    ghost LETTER = { 74 };

    const LETTER: char = 'J';

    ghost lettered = { refl };

    ghost lawful = { joined_lawful L.Bank.kind R.Bank.kind L.Bank.lawful R.Bank.lawful };

    fn streams(&self) -> u64 {
        (self.left.streams() + self.right.streams()).min(MOST)
    }

    // This and the next three ask one question of two types of bank; a function of them would take two closures each time.
    fn record_of(&self, stream: u64) -> Option<Record> {
        match self.route(stream)? {
            Left(at) => self.left.record_of(at),
            Right(at) => self.right.record_of(at),
        }
    }

    fn count(&self, stream: u64) -> Option<u64> {
        match self.route(stream)? {
            Left(at) => self.left.count(at),
            Right(at) => self.right.count(at),
        }
    }

    fn ceiling(&self, stream: u64, m: i64) -> Option<u64> {
        match self.route(stream)? {
            Left(at) => self.left.ceiling(at, m),
            Right(at) => self.right.ceiling(at, m),
        }
    }

    fn opening(&self, stream: u64, m: i64) -> Option<u64> {
        match self.route(stream)? {
            Left(at) => self.left.opening(at, m),
            Right(at) => self.right.opening(at, m),
        }
    }

    fn begin(&mut self, moment: u64) {
        self.left.begin(moment);
        self.right.begin(moment);
    }

    fn tick(&mut self) {
        self.left.tick();
        self.right.tick();
    }

    fn accept(&mut self, stream: u64) -> Result<(), Refusal> {
        match self.route(stream).ok_or(Refusal::NoSuchStream)? {
            Left(at) => self.left.accept(at),
            Right(at) => self.right.accept(at),
        }
    }
}
