// How much of the worker the streams ask for on average.

ghost use Rattle.std.specs.Prelude.{◌≡◌, ◌^◌, ◌≤◌};
ghost use Rattle.demand.specs.Loads.{load_of, total_load};

use bank::Bank;

// The load of one stream, in thousandths.
fn load_of<B: Bank>(bank: &B, stream: u64) -> u64
    ensures value { result ≡ load_of B.kind bank.now stream }
    ensures bound { result ≤ 2 ^ 42 }
{
    let k = bank.count(stream).unwrap_or(0);
    bank.record_of(stream).map_or(0, |record| {
        let row = record.row();
        1000 * k * row.budget / row.gap
    })
}

// The load of a bank, in thousandths of the worker. Each stream's part is rounded down.
#[tactic(auto, using(crate::proofs::Totals::total_before, crate::proofs::Totals::total_none))]
pub fn load<B: Bank>(bank: &B) -> u64
    ensures { result ≡ total_load B.kind bank.now }
{
    let mut sum = 0;
    // By number, since there is no list of streams. A `sum` of them was tried: that it fits is not proved, where the loop's bound is.
    for stream in 1..bank.streams() + 1 {
        sum += load_of(bank, stream);
    }
    sum
}
