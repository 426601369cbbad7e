// Reading a line, or refusing it.

ghost use Rattle.std.specs.Prelude.{◌≡◌, ◌+◌, ◌-◌, ◌<◌, ◌≤◌, length, MatchResult};
ghost use Rattle.text.specs.Places.{out_of_shape};
ghost use Rattle.text.specs.Reader.{bytes_left, line_number, NoneRead, ReadBy, AllRead};
ghost use Rattle.text.specs.Words.{Form};

use crate::cursor::Cursor;
use crate::from_line::FromLine;
use crate::reader::Reader;
use stream::{Fault, Layer, Refusal};

impl<'a> Reader<'a> {
    // One line of a form with its newline. Where the text is out of shape, the reader stays.
    #[tactic(auto, using(crate::proofs::Answering::shortens))]
    pub fn next<F: FromLine>(&mut self) -> Result<F, Fault>
        ensures answer { MatchResult result (λ value. ReadBy F.bytes F.valid self.old value self.new) (λ fault. NoneRead (Form F.bytes F.valid) self.old fault self.new) }
        ensures complete { AllRead F.bytes F.valid (bytes_left self.old) result }
    {
        let mut cursor = Cursor {
            reader: self,
            rest: self.rest,
        };
        let value = F::from_line(&mut cursor)?;
        let rest = cursor.rest;
        self.pass(rest);
        Ok(value)
    }

    // Where the next line is out of shape, at a byte of it from 1.
    pub fn out_of_shape(&self, byte: u64) -> Fault
        ensures { result ≡ out_of_shape (line_number self.now) byte }
    {
        Fault {
            refusal: Refusal::OutOfShape,
            layer: Layer::Text,
            line: self.line,
            byte,
        }
    }

    // Out of shape in the next line, at the first byte of the rest.
    pub(crate) fn fault_at(&self, rest: &[u8]) -> Fault
        requires { length rest.now ≤ length (bytes_left self.now) }
        ensures { result ≡ out_of_shape (line_number self.now) (length (bytes_left self.now) + 1 - length rest.now) }
    {
        self.out_of_shape((self.rest.len() + 1 - rest.len()) as u64)
    }

    // Goes on behind a line that was read.
    fn pass(&mut self, rest: &'a [u8])
        requires { length rest.now < length (bytes_left self.old) }
        ensures text { bytes_left self.new ≡ rest.now }
        ensures line { line_number self.new ≡ line_number self.old + 1 }
    {
        self.rest = rest;
        self.line += 1;
    }
}
