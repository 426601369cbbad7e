// A slip stands for a turn that was handed out. It is not let go of: one settles it.

ghost use Rattle.std.specs.Prelude.{◌≡◌};

use stream::Refusal;

// Void by a refusal, or good for the turn that is out. No `Result` of a slip is handed out in its place: pick always hands out a slip, and settle takes a void one too.
pub struct Slip {
    pub(crate) void: Option<Refusal>,
}

impl Slip {
    // Why the slip is void, if it is.
    pub fn refusal(&self) -> Option<Refusal>
        ensures { result ≡ self.now.void }
    {
        self.void
    }
}
