// The plan of the README, as a bank. Crate `worked` makes such a bank for itself; here a refusal fails the test.

use std::test::Fail;
use stream::Record;
use table::Sporadic;
use worked::{LOCK, PREVIEW};

pub(crate) fn bank_of_two() -> Result<Sporadic, Fail> {
    let mut bank = Sporadic::new();
    bank.grow(Record::new(LOCK)?)?;
    bank.grow(Record::new(PREVIEW)?)?;
    Ok(bank)
}
