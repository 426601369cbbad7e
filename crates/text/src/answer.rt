// Answers, one to a line.

ghost use Rattle.std.specs.Prelude.{◌≡◌, ◌+◌, ◌≤◌, [], ◌∷◌, ◌++◌, codes, length, Some};
ghost use Rattle.arrayvec.specs.ArrayString.{array_string_len};
ghost use Rattle.text.specs.Shown.{answer_line};

use arrayvec::ArrayString;
use itoa::Buffer;
use std::fmt;
use stream::{Fault, Verdict};
use turns::{Counts, Settled};

// The room for the longest answer, which is a fault that shows its point, and for its newline.
const ANSWER: usize = 128;

const LINE: usize = ANSWER + 1;

// What a run says in a line of its own.
#[derive(Clone, Copy)]
pub enum Answer {
    Accepted(Verdict),
    Refused(Fault),
    // a job of this stream was accepted
    Took(u64),
    Ran(Settled),
    // the worker is back to normal at this moment
    Calm(u64),
    Total(Counts),
}

impl Answer {
    pub fn shown(&self) -> ArrayString<ANSWER>
        ensures { result.bytes ≡ answer_line self.now }
    {
        let mut text = ArrayString::new();
        self.append_to(&mut text);
        text
    }

    // The line with its newline.
    pub fn line(&self) -> ArrayString<LINE>
        ensures { result.bytes ≡ answer_line self.now ++ 10 ∷ [] }
    {
        let mut line = ArrayString::new();
        self.append_to(&mut line);
        line.push_str("\n");
        line
    }

    // Appends the answer to a text that has room for the longest, so that a line is made in one place (docs/SPEED.md).
    fn append_to<const CAP: usize>(&self, text: &mut ArrayString<CAP>)
        requires { array_string_len text.old + 128 ≤ CAP }
        ensures bytes { text.new.bytes ≡ text.old.bytes ++ answer_line self.now }
        ensures short { array_string_len text.new ≤ array_string_len text.old + 128 }
    {
        match self {
            Answer::Accepted(verdict) => bracketed(text, "(accepted ", verdict.shown().as_str()),
            Answer::Refused(fault) => bracketed(text, "(refused ", fault.shown().as_str()),
            Answer::Took(stream) => bracketed(text, "(took ", Buffer::new().format(*stream)),
            Answer::Ran(settled) => bracketed(text, "(ran ", settled.shown().as_str()),
            Answer::Calm(moment) => bracketed(text, "(calm ", Buffer::new().format(*moment)),
            Answer::Total(counts) => bracketed(text, "(total ", counts.shown().as_str()),
        }
    }
}

fn bracketed<const CAP: usize>(text: &mut ArrayString<CAP>, opening: &str, inner: &str)
    requires { array_string_len text.old + length opening.now + length inner.now + 1 ≤ CAP }
    ensures bytes { text.new.bytes ≡ text.old.bytes ++ (opening.now ++ (inner.now ++ codes ")")) }
    ensures len { array_string_len text.new ≡ array_string_len text.old + length opening.now + length inner.now + 1 }
{
    text.push_str(opening);
    text.push_str(inner);
    text.push_str(")");
}

impl fmt::Display for Answer {
    ghost output = { λ a. Some (answer_line a) };

    fn fmt<W: fmt::Write>(&self, f: &mut fmt::Formatter<W>) -> fmt::Result {
        f.write_str(self.shown().as_str())
    }
}
