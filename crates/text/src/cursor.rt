// Where a line is read.

ghost use Rattle.std.specs.Prelude.{◌≡◌, ◌≤◌, length, slice_get};
ghost use Rattle.text.specs.Reader.{bytes_left};

use crate::reader::Reader;

mod calls;
mod lines;
mod numerals;
mod parts;

// A place in the line that comes next to a reader.
#[derive(Drop)]
pub struct Cursor<'r, 'a> {
    pub reader: &'r Reader<'a>,
    pub rest: &'a [u8],
    ghost within: { length rest.now ≤ length (bytes_left reader.now) },
}

// The first byte as a character. Lines, calls, classes, reports and numbers are told apart by it, a case for each letter or digit.
fn head(text: &[u8]) -> Option<char>
    ensures { result ≡ slice_get text.now 0 }
{
    text.first().map(|byte| char::from(*byte))
}
