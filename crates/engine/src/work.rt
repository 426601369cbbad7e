// What an engine reports when it is taken up.

use turns::Counts;

#[derive(Drop)]
pub struct Report<B> {
    pub counts: Counts,
    pub bank: B,
    pub letter: char,
}
