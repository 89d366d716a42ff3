// The two calls of a turn: what is said of a message, and what the channel is after it.
ghost use Rattle.std.specs.Prelude.{◌≡◌};
ghost use Rattle.turn.specs.Step.{left_of, verdict_of};

use crate::{admit, store};
use channel::channel::Channel;
use rules::decide;
use rules::verdict::{Accepted, Refusal};

// What is said of a message: answers 3 to 14 and 0. The number is the one that its entry gets.
#[tactic(auto, unfolding(crate::specs::Step::verdict_of))]
pub fn judge(c: Channel, number: u32, side: u8, m: &[u8]) -> Result<Accepted, Refusal>
    ensures { result ≡ verdict_of c number side m.now }
{
    let (kind, asked) = admit::admit(&c, side, m)?;
    decide::decide(kind, asked, number, c.jitter, store::see(c, asked))
}

// The channel afterwards, by what was accepted of the message. A refused one leaves it as it was, whatever is told of the refusal.
pub fn after(c: Channel, accepted: Option<Accepted>) -> Channel
    ensures { result ≡ left_of c accepted }
{
    match accepted {
        None => c,
        Some(a) => store::keep(c, a.phase, a.act),
    }
}
