// A text that is read line by line.

ghost use Rattle.std.specs.Prelude.{◌+◌, ◌^◌, ◌≤◌, length};

mod place;
mod reading;

// What is left of a text, and the number of the line that comes next. Lines are fewer than bytes, so that number does not wrap.
#[derive(Drop)]
pub struct Reader<'a> {
    rest: &'a [u8],
    line: u64,
    ghost counted: { line + length rest.now ≤ 2 ^ 63 },
}
