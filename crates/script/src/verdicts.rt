// Whether a plan may run, told by a number alone.

ghost use Rattle.std.specs.Prelude.{◌≡◌};
ghost use Rattle.script.specs.Checks.{Found, streams_only, told};

use demand::admit;
use plan::{Start, Tables, read_plan};
use stream::{Fault, Refusal, Verdict};
use text::Reader;

// A plan that is only checked says nothing of a start.
fn streams_only(read: Result<Option<Start>, Fault>) -> Result<(), Refusal>
    ensures { result ≡ streams_only read }
{
    let go = read.map_err(|fault| fault.refusal)?;
    go.map_or(Ok(()), |_| Err(Refusal::OutOfShape))
}

// The bank need not begin: what it can be asked for does not change by that.
pub(crate) fn check_plan(text: &[u8]) -> Result<Verdict, Refusal>
    ensures { Found text.now result }
{
    let mut reader = Reader::new(text);
    let mut tables = Tables::new();
    streams_only(read_plan(&mut reader, &mut tables))?;
    admit(&tables.into_bank())
}

// One signed number, as C is told a verdict or a refusal.
pub(crate) fn number_of(answer: Result<Verdict, Refusal>) -> i64
    ensures { result ≡ told answer }
{
    answer.map_or_else(|refusal| u64::from(refusal) as i64, |_| 0)
}
