// The numbers of a stream, within their limits.

ghost use Rattle.stream.specs.Limits.{Within};

use crate::Row;

mod making;

// A row that keeps the limits. No other record exists.
#[derive(Clone, Copy)]
pub struct Record {
    row: Row,
    ghost within: { Within row },
}
