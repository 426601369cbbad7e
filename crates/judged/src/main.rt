// Matches cases that another program drew and judged (judge/) with what the library answers. Standard input is a container of them: of each a line "case NAME LENGTH NUMBER LENGTH", the text, what replay prints for it, and a newline.

#![tactic(auto)]

ghost use Rattle.std.specs.Prelude.{◌≡◌, ◌<◌, IfOk, IfSome, length, true};
ghost use Rattle.script.specs.Checks.{Checked};
ghost use Rattle.script.specs.Replays.{ReplayedUpto};

use script::{check, replayed};
use std::alloc::{AllocError, Global};
use std::io::{Read, Write};

#[derive(Drop)]
struct Case<'a> {
    name: &'a str,
    text: &'a [u8],
    number: i64,
    printed: &'a [u8],
}

// The numbers of a case line behind its first word, and its name.
fn head(line: &str) -> Option<(&str, usize, i64, usize)> {
    let (name, rest) = line.strip_prefix("case ")?.split_once(' ')?;
    let (text, rest) = rest.split_once(' ')?;
    let (number, printed) = rest.split_once(' ')?;
    Some((
        name,
        text.parse().ok()?,
        number.parse().ok()?,
        printed.parse().ok()?,
    ))
}

// The first case, and what comes after it.
fn next_case<'a>(container: &'a [u8]) -> Option<(Case<'a>, &'a [u8])>
    ensures { IfSome result (λ found. length found.1.now < length container.now) }
{
    let end = container.iter().position(|byte| *byte == b'\n')?;
    let (line, rest) = container.split_at_checked(end)?;
    let (name, text, number, printed) = head(str::from_utf8(line).ok()?)?;
    let (text, rest) = rest.strip_prefix(b"\n")?.split_at_checked(text)?;
    let (printed, rest) = rest.split_at_checked(printed)?;
    Some((
        Case {
            name,
            text,
            number,
            printed,
        },
        rest.strip_prefix(b"\n")?,
    ))
}

// A case that matches has the number that check answers, and what replay writes.
fn matches(heap: Global, case: &Case) -> Result<bool, AllocError>
    ensures { IfOk result (λ same. same ≡ true → Checked case.now.text.now case.now.number × ReplayedUpto case.now.text.now case.now.printed.now) }
{
    let printed = replayed(heap, case.text)?;
    Ok(check(case.text) == case.number && printed.as_slice() == case.printed)
}

fn main(rt: HostRuntime) -> anyhow::Result<()> {
    let mut container = Vec::new(rt.alloc());
    rt.stdin().read_to_end(&mut container)?;
    let mut rest = container.as_slice();
    let mut cases = 0u64;
    let mut matched = 0u64;
    while let Some((case, more)) = next_case(rest) {
        cases = cases.saturating_add(1);
        if matches(rt.alloc(), &case)? {
            matched = matched.saturating_add(1);
        } else {
            writeln!(rt.stdout(), "{} differs", case.name)?;
        }
        rest = more;
    }
    writeln!(
        rt.stdout(),
        "{matched} of {cases} cases matched, {} bytes left",
        rest.len()
    )?;
    Ok(())
}
