// An engine is a bank and the state of its worker.

ghost use Rattle.engine.specs.Sound.{Sound};

use turns::State;

pub(crate) mod calls;

#[derive(Drop)]
pub struct Engine<B> {
    bank: B,
    state: State,
    ghost sound: { Sound state },
}
