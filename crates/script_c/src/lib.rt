// What a server written in C calls. include/finchbronze.h declares it.

#![tactic(auto)]

ghost use Rattle.script.specs.Buffers.{FilledNumber};
ghost use Rattle.script.specs.Checks.{Checked};

// Whether a plan of stream lines alone may run: 0 if it may, else the number of its refusal.
#[unsafe(no_mangle)]
pub extern "C" fn check(text: &[u8]) -> i64
    ensures { Checked text.now result }
{
    script::check(text)
}

// Writes what a plan and its script are answered to the front of a buffer: how many bytes, or a number below 0 that says why nothing was written.
#[unsafe(no_mangle)]
pub extern "C" fn replay(text: &[u8], buffer: &mut [u8]) -> i64
    ensures { FilledNumber text.now buffer.old result buffer.new }
{
    script::replay(text, buffer).map_or_else(i64::from, |written| written as i64)
}
