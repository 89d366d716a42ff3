// Answers 3 to 6, which go by the message and the channel's phase and interfaces alone; then what the message asks.
ghost use Rattle.std.specs.Prelude.{◌≡◌, None};
ghost use Rattle.rules.specs.Verdict.{refusal_of};
ghost use Rattle.turn.specs.Admit.{admitted, asks_in};

use answers::answer::Answer;
use answers::kind::Kind;
use answers::phase;
use channel::channel::Channel;
use header::shared_msg_header;
use kinds::kind::kind_of;
use rules::verdict::Refusal;
use wire::message::{Asked, Unfit, ask};

// The longest message (01 "Answer numbers", 4).
pub const LONGEST: usize = 65535;

// A refusal of a message of no known kind.
fn unknown(answer: Answer) -> Refusal
    ensures { result ≡ refusal_of None answer }
{
    Refusal { kind: None, answer }
}

// A message of a kind: it may come in some phase only.
#[tactic(auto, unfolding(crate::specs::Admit::asks_in))]
fn in_phase(phase: u8, kind: Kind, m: &[u8]) -> Result<(Kind, Result<Asked, Unfit>), Refusal>
    ensures { result ≡ asks_in phase kind m.now }
{
    if phase::of(kind).before != phase {
        return Err(Refusal {
            kind: Some(kind),
            answer: Answer::WrongPhase,
        });
    }
    Ok((kind, ask(kind, m)))
}

#[tactic(auto, unfolding(crate::specs::Admit::admitted, crate::specs::Admit::from_header))]
pub(crate) fn admit(
    c: &Channel,
    side: u8,
    m: &[u8],
) -> Result<(Kind, Result<Asked, Unfit>), Refusal>
    ensures { result ≡ admitted c.now.phase c.now.device c.now.callback side m.now }
{
    let h = shared_msg_header::read(m).ok_or(unknown(Answer::Short))?;
    if LONGEST < m.len() {
        return Err(unknown(Answer::Long));
    }
    let kind = kind_of(h, side, c.device, c.callback).ok_or(unknown(Answer::NoKind))?;
    in_phase(c.phase, kind, m)
}
