// Making a record, and reading it.

ghost use Rattle.std.specs.Prelude.{◌≡◌};
ghost use Rattle.stream.specs.Making.{Made};

use crate::{Class, Record, Refusal, Row};

const LONGEST_GAP: u64 = 65535;

impl Record {
    // The record of a row, or the first limit that the row breaks: of the gap, the deadline, the budgets, the short deadline.
    pub fn new(row: Row) -> Result<Record, Refusal>
        ensures { Made row result }
    {
        if row.gap < 1 || row.gap > LONGEST_GAP {
            return Err(Refusal::GapOutOfLimits);
        }
        if row.deadline < 1 || row.deadline > row.gap {
            return Err(Refusal::DeadlineOutOfLimits);
        }
        if row.budget < 1 || row.budget > row.deadline {
            return Err(Refusal::BudgetOutOfLimits);
        }
        match row.class {
            Class::Critical => {
                if row.certain < row.budget || row.certain > row.deadline {
                    return Err(Refusal::BudgetOutOfLimits);
                }
                if row.short < row.budget || row.short > row.deadline {
                    return Err(Refusal::ShortDeadlineOutOfLimits);
                }
                Ok(Record { row })
            }
            Class::Background => {
                if row.certain != 0 {
                    return Err(Refusal::BudgetOutOfLimits);
                }
                if row.short != row.deadline {
                    return Err(Refusal::ShortDeadlineOutOfLimits);
                }
                Ok(Record { row })
            }
        }
    }

    pub fn row(&self) -> Row
        ensures { result ≡ self.now.row }
    {
        self.row
    }
}
