// Reading the parts of a line, byte by byte.

ghost use Rattle.std.specs.Prelude.{◌≡◌, ◌<◌, ◌++◌, MatchResult, slice_index_or};
ghost use Rattle.std.specs.Int.{IsInRange};
ghost use Rattle.text.specs.Reading.{ahead, fault_at, closed, Reads, Strays, Counted};
ghost use Rattle.text.specs.Words.{Exactly, Small};

use crate::cursor::Cursor;
use crate::cursor::numerals::numeral_len;
use stream::Fault;

impl<'r, 'a> Cursor<'r, 'a> {
    // Out of shape at the next byte.
    pub(super) fn fault(&self) -> Fault
        ensures { result ≡ fault_at self.now }
    {
        self.reader.fault_at(self.rest)
    }

    // Byte by byte, since a fault stands at the first that differs.
    #[tactic(auto, using(crate::proofs::Forms::leaves_exactly))]
    pub(super) fn word(&mut self, word: &[u8]) -> Result<(), Fault>
        ensures { MatchResult result (λ _. (ahead self.old ≡ word.now ++ ahead self.new) × (self.new.reader ≡ self.old.reader)) (λ fault. Strays (Exactly word.now) self.old fault) }
    {
        for due in word {
            match self.rest {
                [next, rest @ ..] if next == due => self.rest = rest,
                _ => return Err(self.fault()),
            }
        }
        Ok(())
    }

    // A number, as many digits as can be its own. They are few enough that reading them fails only where there is none.
    #[tactic(auto, using(crate::proofs::Numerals::digits_parse))]
    fn digits(&mut self) -> Result<u64, Fault>
        ensures { MatchResult result (λ n. Counted (ahead self.old) n (ahead self.new) × (self.new.reader ≡ self.old.reader)) (λ fault. ¬ (IsInRange 48 57 (slice_index_or (ahead self.old) 0 0)) × (fault ≡ fault_at self.old)) }
    {
        let (digits, rest) = self.rest.split_at(numeral_len(self.rest));
        let value = str::from_utf8(digits)
            .ok()
            .and_then(|text| text.parse().ok())
            .ok_or(self.fault())?;
        self.rest = rest;
        Ok(value)
    }

    // A number and the bytes that close it, the first of which is no digit.
    #[tactic(auto, using(crate::proofs::Numerals::leaves_closing, crate::proofs::Numerals::leaves_number))]
    pub(super) fn number(&mut self, close: &[u8]) -> Result<u64, Fault>
        requires { slice_index_or close.now 0 48 < 48 }
        ensures { Reads (closed close.now) Small self.old result self.new }
    {
        let value = self.digits()?;
        self.word(close)?;
        Ok(value)
    }
}
