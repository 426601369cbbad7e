// A stream that has no share yet.

ghost use Rattle.std.specs.Prelude.{◌≡◌};
ghost use Rattle.demand.specs.Watching.{idle};

use crate::watch::{Plateau, Steady, Watch};

impl Watch {
    // What is known of a stream that has no share below a length.
    pub(crate) fn idle(seen: Plateau, end: u64) -> Watch
        ensures { result ≡ idle seen end }
    {
        Watch {
            plateau: seen,
            steady: Steady { share: 0, end },
        }
    }
}
