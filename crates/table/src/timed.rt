// Streams that know when they open.

ghost use Rattle.std.specs.Prelude.{◌≡◌, ℕ, ◌+◌, ◌≤◌};
ghost use Rattle.stream.specs.declared.limits.Record.{Record as Rec};
ghost use Rattle.table.specs.Waits.{after};

use stream::Record;

// A kind of streams by when they open: how long one waits from a moment on, and what a tick leaves of a wait.
pub trait Timed: Copy {
    // the record of a stream
    ghost recorded: { Self → Rec };

    // the waits that may begin at a moment
    ghost first_wait: { ℕ → Self → ℕ → Type 0 };

    ghost wait_after: { Self → ℕ → ℕ };

    // the second is the first with another record
    ghost alike: { Self → Self → Type 0 };

    ghost LETTER: { ℕ };

    // The letter of the banks of such streams.
    const LETTER: char;

    // Any such stream, for the places of a table that no stream has yet.
    fn blank() -> Self;

    fn record(&self) -> Record
        ensures { result ≡ recorded self.now };

    // How long the stream waits from a moment on.
    fn first_wait(&self, moment: u64) -> u64
        ensures { first_wait moment self.now result };

    // What is left of a wait a tick later.
    fn wait_after(&self, wait: u64) -> u64
        ensures { result ≡ wait_after self.now wait };

    // The stream with another record of the same gap.
    fn with_record(&self, other: Record) -> Self
        requires { other.row.gap ≡ (recorded self.now).row.gap }
        ensures other { recorded result ≡ other }
        ensures alike { alike self.now result };

    // a tick opens the stream no more than a moment later
    ghost opens_no_more: { (s : Self) (wait m : ℕ) → after (wait_after s wait) (recorded s).row.gap m ≤ after wait (recorded s).row.gap (m + 1) };
}
