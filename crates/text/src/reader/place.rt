// Where a reader stands.

ghost use Rattle.std.specs.Prelude.{◌≡◌, length, ◌==◌};
ghost use Rattle.text.specs.Reader.{bytes_left, line_number};

use crate::reader::Reader;

impl<'a> Reader<'a> {
    // At the start of a text, before its line 1.
    pub fn new(text: &'a [u8]) -> Reader<'a>
        ensures text { bytes_left result ≡ text.now }
        ensures line { line_number result ≡ 1 }
    {
        Reader {
            rest: text,
            line: 1,
        }
    }

    // The number of the line that comes next.
    pub fn line_number(&self) -> u64
        ensures { result ≡ line_number self.now }
    {
        self.line
    }

    pub fn at_end(&self) -> bool
        ensures { result ≡ (length (bytes_left self.now) == 0) }
    {
        self.rest.is_empty()
    }
}
