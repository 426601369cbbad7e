// What a line of a text is read as.

ghost use Rattle.std.specs.Prelude.{ℕ, ◌<◌, List, length};
ghost use Rattle.text.specs.Reader.{AllRead};
ghost use Rattle.text.specs.Reading.{ahead, Reads};

use crate::cursor::Cursor;
use stream::Fault;

// A form of line: the bytes of each value, with their newline, and which values have a line. All forms are of this crate, since nobody else can name a cursor.
pub trait FromLine: Sized {
    ghost bytes: { Self → List ℕ };

    ghost valid: { Self → Type 0 };

    // Where no line of the form comes, the cursor may stand anywhere.
    fn from_line(cursor: &mut Cursor) -> Result<Self, Fault>
        ensures answer { Reads bytes valid cursor.old result cursor.new }
        ensures complete { AllRead bytes valid (ahead cursor.old) result };

    // No line is empty.
    ghost some: { (value : Self) → 0 < length (bytes value) };
}
