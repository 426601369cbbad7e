// Points, verdicts and faults as users see them.

ghost use Rattle.std.specs.Prelude.{◌≡◌, ◌≤◌, length, Some};
ghost use Rattle.stream.specs.Shown.{fault_line, phase_word, point_line, verdict_line};

use crate::{Fault, Phase, Point, Refusal, Verdict};
use arrayvec::ArrayString;
use itoa::{Buffer, Integer};
use std::fmt;

// The room for the longest of each: its numbers, and what stands around them.
const POINT: usize = u64::MAX_STR_LEN + i64::MAX_STR_LEN + 11;

const VERDICT: usize = 2 * u64::MAX_STR_LEN + 2 + POINT;

const FAULT: usize = 3 * u64::MAX_STR_LEN + 7 + POINT;

impl Phase {
    pub fn word(&self) -> &'static str
        ensures word { result.now ≡ phase_word self.now }
        ensures short { length result.now ≤ 7 }
    {
        match self {
            Phase::Normal => "normal",
            Phase::Overrun => "overrun",
        }
    }
}

impl Point {
    pub fn shown(&self) -> ArrayString<POINT>
        ensures { result.bytes ≡ point_line self.now }
    {
        let mut text = ArrayString::new();
        text.push_str("(");
        text.push_str(self.phase.word());
        text.push_str(" ");
        text.push_str(Buffer::new().format(self.length));
        text.push_str(" ");
        text.push_str(Buffer::new().format(self.margin));
        text.push_str(")");
        text
    }
}

impl Verdict {
    pub fn shown(&self) -> ArrayString<VERDICT>
        ensures { result.bytes ≡ verdict_line self.now }
    {
        let mut text = ArrayString::new();
        text.push_str(Buffer::new().format(self.horizon));
        text.push_str(" ");
        text.push_str(Buffer::new().format(self.lengths));
        text.push_str(" ");
        text.push_str(self.point.shown().as_str());
        text
    }
}

impl Fault {
    // The number, the layer, the place, and the point that decided if a demand was exceeded.
    pub fn shown(&self) -> ArrayString<FAULT>
        ensures { result.bytes ≡ fault_line self.now }
    {
        let mut text = ArrayString::new();
        text.push_str(Buffer::new().format(u64::from(self.refusal)));
        text.push_str(" ");
        text.push(char::from(self.layer));
        text.push_str(" (");
        text.push_str(Buffer::new().format(self.line));
        text.push_str(" ");
        text.push_str(Buffer::new().format(self.byte));
        text.push_str(")");
        if let Refusal::DemandExceeded(verdict) = self.refusal {
            text.push_str(" ");
            text.push_str(verdict.point.shown().as_str());
        }
        text
    }
}

impl fmt::Display for Phase {
    ghost output = { λ phase. Some (phase_word phase) };

    fn fmt<W: fmt::Write>(&self, f: &mut fmt::Formatter<W>) -> fmt::Result {
        f.write_str(self.word())
    }
}

impl fmt::Display for Point {
    ghost output = { λ point. Some (point_line point) };

    fn fmt<W: fmt::Write>(&self, f: &mut fmt::Formatter<W>) -> fmt::Result {
        f.write_str(self.shown().as_str())
    }
}

// Not derived: that would show the fields in the order in which points are compared, and no longer as a point is read.
impl fmt::Debug for Point {
    fn fmt<W: fmt::Write>(&self, f: &mut fmt::Formatter<W>) -> fmt::Result {
        f.debug_struct("Point")
            .field("phase", &self.phase)
            .field("length", &self.length)
            .field("margin", &self.margin)
            .finish()
    }
}

impl fmt::Display for Verdict {
    ghost output = { λ verdict. Some (verdict_line verdict) };

    fn fmt<W: fmt::Write>(&self, f: &mut fmt::Formatter<W>) -> fmt::Result {
        f.write_str(self.shown().as_str())
    }
}

impl fmt::Display for Fault {
    ghost output = { λ fault. Some (fault_line fault) };

    fn fmt<W: fmt::Write>(&self, f: &mut fmt::Formatter<W>) -> fmt::Result {
        f.write_str(self.shown().as_str())
    }
}
