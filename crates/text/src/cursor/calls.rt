// Reading the lines of a script from their parts.

ghost use Rattle.std.proofs.Common.{rules};
ghost use Rattle.text.specs.Calls.{report_bytes, call_bytes, ValidCall};
ghost use Rattle.text.specs.Reading.{Reads};

use crate::call::Call;
use crate::cursor::{Cursor, head};
use crate::from_line::FromLine;
use stream::Fault;

impl<'r, 'a> Cursor<'r, 'a> {
    // Whether a job is done, to the end of the line. Told by its first character, as calls are.
    #[tactic(auto, using(crate::proofs::Calling::report_ends))]
    fn report(&mut self) -> Result<bool, Fault>
        ensures { Reads report_bytes (λ _. Unit {0}) self.old result self.new }
    {
        match head(self.rest) {
            Some('y') => {
                self.word(b"yes)\n")?;
                Ok(true)
            }
            Some('n') => {
                self.word(b"no)\n")?;
                Ok(false)
            }
            _ => Err(self.fault()),
        }
    }

    #[tactic(auto, using(crate::proofs::Calling::call_ends))]
    fn call(&mut self) -> Result<Call, Fault>
        ensures { Reads call_bytes ValidCall self.old result self.new }
    {
        self.word(b"(")?;
        match head(self.rest) {
            Some('r') => {
                self.word(b"release ")?;
                Ok(Call::Release(self.number(b")\n")?))
            }
            Some('t') => {
                self.word(b"turn ")?;
                Ok(Call::Turn(self.report()?))
            }
            Some('c') => {
                self.word(b"calm)\n")?;
                Ok(Call::Calm)
            }
            _ => Err(self.fault()),
        }
    }
}

impl FromLine for Call {
    ghost bytes = { call_bytes };

    ghost valid = { ValidCall };

    ghost some = { λ call. Prim.search rules };

    fn from_line(cursor: &mut Cursor) -> Result<Call, Fault> {
        cursor.call()
    }
}
