// Asking a stream for its ceiling.

ghost use Rattle.std.specs.Prelude.{◌≡◌, ◌-◌, ◌≤◌};
ghost use Rattle.std.specs.Option.{unwrap_or};
ghost use Rattle.bank.specs.Questions.{asked, told};
ghost use Rattle.demand.specs.Asking.{Renews, curve};
ghost use Rattle.demand.specs.Watching.{On, Seen, moved};

use crate::asked::Asked;
use crate::normal::normal_watch;
use crate::overrun::overrun_watch;
use crate::watch::{Plateau, Watch};
use bank::Bank;
use stream::Phase;

// What a bank tells of a stream's ceiling, and 0 where it tells nothing.
fn told<B: Bank>(bank: &B, stream: u64, m: i64) -> u64
    ensures { result ≡ unwrap_or (told (B.kind.records bank.now stream) (B.kind.ceiling bank.now stream) (asked m)) 0 }
{
    bank.ceiling(stream, m).unwrap_or(0)
}

impl Plateau {
    // The plateau at m, where the ceiling is `level`: the one before goes on, or a new one begins. Where the ceiling has risen by all that a gap adds, it stays for a gap.
    fn moved(self, m: u64, level: u64, count: u64, gap: u64) -> Plateau
        requires within { m ≤ 1000000 }
        requires gap { gap ≤ 65535 }
        ensures { result ≡ moved self m level count gap }
    {
        let start = if level == self.level { self.start } else { m };
        let rest = if level.saturating_sub(self.level) == count {
            gap
        } else {
            1
        };
        Plateau {
            start,
            level,
            end: m + rest,
        }
    }
}

impl<'a, 'b, B: Bank> Asked<'a, 'b, B> {
    // The plateau at `length - before`, asked for only where the one that was seen may have ended.
    pub(crate) fn plateau(&self, before: u64) -> Plateau
        requires late { before ≤ self.now.length }
        requires seen { Seen (curve self.now) (self.now.length - before) self.now.seen }
        ensures { On (curve self.now) (self.now.length - before) result }
    {
        let m = self.length - before;
        if m < self.seen.end {
            return self.seen;
        }
        let level = told(self.bank, self.entry.number, m as i64);
        self.seen
            .moved(m, level, self.entry.count, self.entry.row.gap)
    }

    // What is remembered from here on: the share in the phase, and what was seen. It is kept out of line, so that what runs at every length stays small (docs/SPEED.md).
    #[inline(never)]
    pub(crate) fn watch(&self) -> Watch
        ensures { Renews self.now self.now.phase result }
    {
        // By the phase at hand. Two types with a trait, as it was, make each loop and each memory generic for these two lines.
        match self.phase {
            Phase::Normal => normal_watch(self),
            Phase::Overrun => overrun_watch(self),
        }
    }
}
