// The demand of a whole bank in one phase, one length after another.

ghost use Rattle.std.specs.Prelude.{◌≡◌, ◌^◌, ◌≤◌};
ghost use Rattle.demand.specs.Demands.{demand};
ghost use Rattle.demand.specs.Following.{Onward, Upto};

use crate::asked::Asked;
use crate::entry::Entry;
use crate::following::{Followed, Following};
use crate::watch::Watch;
use arrayvec::ArrayVec;
use bank::Bank;
use stream::Phase;

impl<'a, B: Bank> Following<'a, B> {
    // Before the first length.
    pub(crate) fn new(bank: &'a B, phase: Phase) -> Following<'a, B>
        requires { B.kind.streams bank.now ≤ 32 }
        ensures bank { result.bank.now ≡ bank.now }
        ensures phase { result.phase ≡ phase }
        ensures start { Upto B.kind result 0 }
    {
        let mut following = Following {
            bank,
            phase,
            streams: ArrayVec::new(),
        };
        for number in 1..bank.streams() + 1 {
            if let Some(record) = bank.record_of(number) {
                following.streams.push(Followed {
                    entry: Entry {
                        number,
                        row: record.row(),
                        count: bank.count(number).unwrap_or(0),
                    },
                    watch: Watch::default(),
                });
            }
        }
        following
    }

    // The demand at a length, one length after the one before.
    pub(crate) fn next_demand(&mut self, length: u64) -> u64
        requires within { length ≤ 1000000 }
        requires upto { Upto B.kind self.old length }
        ensures value { result ≡ demand B.kind self.old.bank.now self.old.phase length }
        ensures bound { result ≤ 2 ^ 42 }
        ensures onward { Onward B.kind self.old length self.new }
    {
        let mut sum = 0;
        for stream in self.streams.iter_mut() {
            if stream.watch.steady.end <= length {
                let asked = Asked {
                    bank: self.bank,
                    phase: self.phase,
                    entry: &stream.entry,
                    seen: stream.watch.plateau,
                    length,
                };
                stream.watch = asked.watch();
            }
            sum += stream.watch.steady.share;
        }
        sum
    }
}
