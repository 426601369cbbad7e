// Worked plans: what the definitions come to on small numbers, as one fact.

#![tactic(auto)]

ghost use Rattle.std.specs.Prelude.{◌≡◌, [], ◌∷◌};
ghost use Rattle.table.specs.Rasters.{raster_states};
ghost use Rattle.table.specs.Sporadics.{states_in};
ghost use Rattle.table.specs.Tables.{fresh};
ghost use Rattle.worked.specs.Lives.{Lived};
ghost use Rattle.worked.specs.Plans.{JudgedPair};
ghost use Rattle.worked.specs.Worked.{Worked};

use bank::Bank;
use demand::admit;
use join::Joined;
use stream::{Class, Record, Refusal, Row, Verdict};
use table::{Raster, Sporadic};

// The plan of the README: a lock renewal and a preview.
pub const LOCK: Row = Row {
    class: Class::Critical,
    budget: 2,
    certain: 4,
    short: 2,
    deadline: 6,
    gap: 6,
};

pub const PREVIEW: Row = Row {
    class: Class::Background,
    budget: 3,
    certain: 0,
    short: 6,
    deadline: 6,
    gap: 6,
};

// The plan of the README, and what is worked out of it and of plans near it, on the banks of any kind; and runs on it, in which a job finishes, one is cut, a switch drops one, and it is calm again.
#[tactic(auto, using(crate::proofs::Living::lived))]
pub fn worked_plans<B: Bank>() -> (Row, Row)
    ensures plans { Worked B.kind result.0 result.1 }
    ensures runs { Lived result.0 result.1 }
{
    (LOCK, PREVIEW)
}

// The bank that the lines of a plan make. A new table has room for both, so neither is refused.
fn bank_of_two(first: Record, second: Record) -> Joined<Sporadic, Raster>
    ensures spaced { states_in result.left ≡ fresh first ∷ fresh second ∷ [] }
    ensures aligned { raster_states result.right ≡ [] }
{
    let mut bank = Sporadic::new();
    let _ = bank.grow(first);
    let _ = bank.grow(second);
    Joined::new(bank, Raster::new())
}

// The verdict on a plan of two sporadic streams; for the rows of the worked plans it is the one told there, since no other answer is right.
pub fn admit_two(first: Record, second: Record) -> Result<Verdict, Refusal>
    ensures { JudgedPair first.row second.row result }
{
    admit(&bank_of_two(first, second))
}
