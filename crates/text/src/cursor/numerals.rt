// How many bytes at the front of a text are one number.

ghost use Rattle.std.specs.Prelude.{◌≡◌, min};
ghost use Rattle.std.specs.Float.Numeral.{digits_len};
ghost use Rattle.text.specs.Reading.{Numeral};

use crate::cursor::head;

// The most digits that a number has.
const MOST_DIGITS: usize = 13;

// How many digits stand at the front of the text, up to so many, so that no more bytes are looked at.
fn digits_len(text: &[u8], most: usize) -> usize
    ensures { result ≡ min (digits_len text.now) most }
{
    text.iter()
        .take(most)
        .take_while(|b| b.is_ascii_digit())
        .count()
}

// How many digits at the front of the text are one number: 0 stands alone.
#[tactic(auto, using(crate::proofs::Numerals::numeral_alone, crate::proofs::Numerals::numeral_long))]
pub(super) fn numeral_len(text: &[u8]) -> usize
    ensures { Numeral text.now result }
{
    let most = match head(text) {
        Some('0') => 1,
        _ => MOST_DIGITS,
    };
    digits_len(text, most)
}
