// What the bodies of all kinds have in common: how they are read, the values that 01 states for them, and what they ask.
ghost use Rattle.std.specs.Prelude.{◌≡◌, List, ℕ, Bool, Result};
ghost use Rattle.words.specs.declared.layout.Fault.{Fault};
ghost use Rattle.wire.specs.Reading.{Body, read_as};
ghost use Rattle.wire.specs.Message.{asks_with, asks_by, fitting};
ghost use Rattle.wire.specs.declared.message.Asked.{Asked};

use crate::message::{Asked, Unfit};
use words::layout::Fault;

pub(crate) trait MessageBody: Copy {
    // What the size reader says of a message.
    ghost reading: { List ℕ → Result Self Fault };

    // Whether the values are those that 01 states.
    ghost fits: { Self → Bool };

    ghost asks: { Self → Asked };

    // The body among those of all kinds.
    ghost body: { Self → Body };

    fn read(m: &[u8]) -> Result<Self, Fault>
        ensures { result ≡ reading m.now };

    fn allowed(self) -> bool
        ensures { result ≡ fits self };

    fn asked(self) -> Asked
        ensures { result ≡ asks self };

    // What the definitions say that it asks is what it is said to ask here.
    ghost says: { (b : Self) → asks_with (body b) ≡ fitting (fits b) (asks b) };
}

// What a message with such a body asks: every size is held before any value.
pub(crate) fn ask_of<B: MessageBody>(m: &[u8]) -> Result<Asked, Unfit>
    ensures { result ≡ asks_by (read_as B.body (B.reading m.now)) }
{
    let b = B::read(m)?;
    if !b.allowed() {
        return Err(Unfit::Value);
    }
    Ok(b.asked())
}
