// Shorter short deadlines for critical streams: an overrun then finds more slack.

ghost use Rattle.std.specs.Prelude.{◌≡◌, ◌≤◌, MatchResult};
ghost use Rattle.stream.specs.Faults.{whole_line};
ghost use Rattle.stream.specs.Refusals.{number};
ghost use Rattle.stream.specs.declared.Layer.TheVariants.{Plan};
ghost use Rattle.table.specs.Shortening.{shortened, told_of, too_short};
ghost use Rattle.table.specs.declared.shortening.Shortfall.TheVariants.{Factor};

use stream::{Class, Fault, Layer, Record, Refusal, Row};

// Why the streams of a table are not shortened: the factor, or the first stream whose short deadline would be below its budget.
#[derive(Clone, Copy, PartialEq, Eq, Debug)]
pub enum Shortfall {
    Factor,
    Stream(u64),
}

impl From<Shortfall> for Refusal {
    ghost from_gives = { λ why refusal. number refusal ≡ (told_of why).0 };

    fn from(why: Shortfall) -> Refusal {
        match why {
            Shortfall::Factor => Refusal::FactorOutOfLimits,
            Shortfall::Stream(_) => Refusal::ShortDeadlineOutOfLimits,
        }
    }
}

impl Shortfall {
    // As a fault of the plan that has the streams, at a line of it.
    pub fn at_line(self, line: u64) -> Fault
        ensures number { number result.refusal ≡ (told_of self).0 }
        ensures place { result ≡ whole_line result.refusal Plan line }
    {
        Fault::at_line(self.into(), Layer::Plan, line)
    }
}

// So many thousandths of a deadline, all of it at most.
#[derive(Clone, Copy)]
pub(crate) struct Thousandths {
    pub(crate) count: u64,
    ghost some: { 1 ≤ count },
    ghost few: { count ≤ 1000 },
}

impl Thousandths {
    pub(crate) fn new(factor: u64) -> Result<Thousandths, Shortfall>
        ensures { MatchResult result (λ t. t.count ≡ factor) (λ why. (why ≡ Factor) × (1 ≤ factor → factor ≤ 1000 → ⊥)) }
    {
        if factor < 1 || factor > 1000 {
            return Err(Shortfall::Factor);
        }
        Ok(Thousandths { count: factor })
    }

    pub(crate) fn shorten_row(self, row: Row) -> Row
        requires { row.deadline ≤ 65535 }
        ensures { result ≡ shortened self.count row }
    {
        match row.class {
            Class::Critical => Row {
                short: row.deadline * self.count / 1000,
                ..row
            },
            Class::Background => row,
        }
    }

    // Whether the short deadline would be below the budget.
    pub(crate) fn is_too_short(self, stream: Record) -> bool
        ensures { result ≡ too_short self.count stream.row }
    {
        let row = stream.row();
        self.shorten_row(row).short < row.budget
    }

    // A record whose short deadline would be below its budget stays as it is.
    pub(crate) fn shorten_record(self, stream: Record) -> Record
        ensures gap { result.row.gap ≡ stream.row.gap }
        ensures row { stream.row.budget ≤ (shortened self.count stream.row).short → result.row ≡ shortened self.count stream.row }
    {
        Record::new(self.shorten_row(stream.row())).unwrap_or(stream)
    }
}
