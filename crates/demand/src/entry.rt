// What a bank says of a stream once and for all.

use stream::Row;

#[derive(Clone, Copy)]
pub(crate) struct Entry {
    pub(crate) number: u64,
    pub(crate) row: Row,
    pub(crate) count: u64,
}
