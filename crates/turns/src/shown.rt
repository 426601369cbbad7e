// How a turn ended, and what became of the jobs, as users see it.

ghost use Rattle.std.specs.Prelude.{◌≡◌, ◌+◌, ◌≤◌, ◌++◌, codes, decimal, length, Some};
ghost use Rattle.arrayvec.specs.ArrayString.{array_string_len};
ghost use Rattle.turns.specs.Shown.{counts_line, end_word, settled_line};

use crate::{Counts, End, Settled};
use arrayvec::ArrayString;
use itoa::{Buffer, Integer};
use std::fmt;

// The room for the longest of each: its numbers, and what stands around them.
const SETTLED: usize = u64::MAX_STR_LEN + 9;

const COUNTS: usize = 5 * u64::MAX_STR_LEN + 4;

impl End {
    pub fn word(&self) -> &'static str
        ensures word { result.now ≡ end_word self.now }
        ensures short { length result.now ≤ 8 }
    {
        match self {
            End::Going => "going",
            End::Finished => "finished",
            End::Cut => "cut",
            End::Switch => "switch",
        }
    }
}

impl Settled {
    // Streams are counted from 1, so that 0 is left for a turn that nobody had.
    pub fn shown(&self) -> ArrayString<SETTLED>
        ensures { result.bytes ≡ settled_line self.now }
    {
        let mut text = ArrayString::new();
        match self {
            Settled::Idle => text.push_str("0 idle"),
            Settled::Ran(stream, end) => {
                text.push_str(Buffer::new().format(*stream));
                text.push_str(" ");
                text.push_str(end.word());
            }
        }
        text
    }
}

impl Counts {
    pub fn shown(&self) -> ArrayString<COUNTS>
        ensures { result.bytes ≡ counts_line self.now }
    {
        let mut text = ArrayString::new();
        text.push_str(Buffer::new().format(self.accepted));
        push_next(&mut text, self.finished);
        push_next(&mut text, self.cut);
        push_next(&mut text, self.dropped);
        push_next(&mut text, self.waiting);
        text
    }
}

// One count more, behind a blank.
fn push_next<const CAP: usize>(text: &mut ArrayString<CAP>, count: u64)
    requires { array_string_len text.old + 21 ≤ CAP }
    ensures bytes { text.new.bytes ≡ text.old.bytes ++ codes " " ++ decimal count }
    ensures short { array_string_len text.new ≤ array_string_len text.old + 21 }
{
    text.push_str(" ");
    text.push_str(Buffer::new().format(count));
}

impl fmt::Display for End {
    ghost output = { λ end. Some (end_word end) };

    fn fmt<W: fmt::Write>(&self, f: &mut fmt::Formatter<W>) -> fmt::Result {
        f.write_str(self.word())
    }
}

impl fmt::Display for Settled {
    ghost output = { λ settled. Some (settled_line settled) };

    fn fmt<W: fmt::Write>(&self, f: &mut fmt::Formatter<W>) -> fmt::Result {
        f.write_str(self.shown().as_str())
    }
}

impl fmt::Display for Counts {
    ghost output = { λ counts. Some (counts_line counts) };

    fn fmt<W: fmt::Write>(&self, f: &mut fmt::Formatter<W>) -> fmt::Result {
        f.write_str(self.shown().as_str())
    }
}
