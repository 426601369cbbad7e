// What a line of a script says, after the go line.

#[derive(Clone, Copy, PartialEq, Eq, Debug)]
pub enum Call {
    // a job of this stream is released
    Release(u64),
    // a turn is handed out and settled, and its job is done or not
    Turn(bool),
    // the worker is to go back to normal
    Calm,
}
