// Reads a plan and its script on standard input, runs it and prints what is answered.

#![tactic(auto)]

ghost use Rattle.std.specs.Prelude.{IfOk, IfSome, OnOk};
ghost use Rattle.replay.specs.Printing.{Printed};
ghost use Rattle.script.specs.Replays.{ReplayedUpto};

use script::{LONGEST_TEXT, replayed};
use std::alloc::Global;
use std::io::{Read, Write};

// The answers to all that a reader gives.
fn answers_to<R: Read + Drop>(heap: Global, input: R) -> anyhow::Result<Vec<u8>>
    ensures { IfOk result (λ answers. IfSome (R.remaining input) (λ text. ReplayedUpto text answers.items)) }
{
    let mut text = Vec::new(heap);
    // one byte more tells a text that is too long
    input.take(LONGEST_TEXT + 1).read_to_end(&mut text)?;
    Ok(replayed(heap, &text)?)
}

// Prints the answers to all that a reader gives; nothing if it cannot be read, or for want of memory.
fn print_answers<R: Read + Drop, W: Write>(
    heap: Global,
    input: R,
    output: &mut W,
) -> anyhow::Result<()>
    ensures { OnOk result (IfSome (R.remaining input) (λ text. Printed text (W.contents output.old) (W.contents output.new))) }
{
    let answers = answers_to(heap, input)?;
    output.write_all(&answers)?;
    Ok(())
}

fn main(rt: HostRuntime) -> anyhow::Result<()> {
    print_answers(rt.alloc(), rt.stdin(), &mut rt.stdout())
}
