// What is remembered of a stream in one phase, from length to length.

mod idling;

// The plateau of a stream's ceiling that was last looked at: where it began, its value, and below which m it is certain to go on. Before the first look its value is 0: no ceiling is 0, so the first look begins a plateau with no case of its own, as an Option would need.
#[derive(Clone, Copy, Default)]
pub(crate) struct Plateau {
    pub(crate) start: u64,
    pub(crate) level: u64,
    pub(crate) end: u64,
}

// A share that stays the same at every length below `end`.
#[derive(Clone, Copy, Default)]
pub(crate) struct Steady {
    pub(crate) share: u64,
    pub(crate) end: u64,
}

#[derive(Clone, Copy, Default)]
pub(crate) struct Watch {
    pub(crate) plateau: Plateau,
    pub(crate) steady: Steady,
}
