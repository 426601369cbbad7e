// The horizon of a bank: the least common multiple of its gaps.

ghost use Rattle.std.specs.Prelude.{◌≡◌, ℕ, ◌*◌, ◌%◌, ◌<◌, ◌≤◌, MatchOption, MatchResult, ◌≢◌};
ghost use Rattle.stream.specs.declared.Refusal.TheVariants.{HorizonTooFar};
ghost use Rattle.demand.specs.Horizons.{Common, Horizon};
ghost use Rattle.demand.specs.Multiples.{NextMultiple};

use crate::FARTHEST;
use bank::Bank;
use stream::Refusal;

// By how much h is multiplied for the first of h, 2h, 3h .. that the gap divides.
fn multiplier(h: u64, gap: u64) -> Option<u64>
    requires some { 1 ≤ h }
    requires spaced { 1 ≤ gap }
    ensures { MatchOption result ((p : ℕ) → 1 ≤ p → p * h ≤ 1000000 → (p * h) % gap ≢ 0) (λ times. NextMultiple h gap (times * h)) }
{
    (1..FARTHEST / h + 1).find(|&times| times * h % gap == 0)
}

fn next_multiple(h: u64, gap: u64) -> Result<u64, Refusal>
    requires some { 1 ≤ h }
    requires spaced { 1 ≤ gap }
    ensures { MatchResult result (λ x. NextMultiple h gap x) (λ e. (e ≡ HorizonTooFar) × ((p : ℕ) → 1 ≤ p → p * h ≤ 1000000 → (p * h) % gap ≢ 0)) }
{
    let times = multiplier(h, gap).ok_or(Refusal::HorizonTooFar)?;
    Ok(times * h)
}

pub(crate) fn common_multiple<B: Bank>(bank: &B) -> Result<u64, Refusal>
    ensures { MatchResult result (λ h. Horizon B.kind bank.now h × (h ≤ 1000000)) (λ e. (e ≡ HorizonTooFar) × ((m : ℕ) → Common B.kind bank.now m → 1000000 < m)) }
{
    let mut h = 1;
    // The numbers that a bank is asked by, no places of a list. As `filter_map` and `try_fold` it is proved too, but by two inductions over their calls and in more than twice the lines.
    for stream in 1..bank.streams() + 1 {
        if let Some(record) = bank.record_of(stream) {
            h = next_multiple(h, record.row().gap)?;
        }
    }
    Ok(h)
}
