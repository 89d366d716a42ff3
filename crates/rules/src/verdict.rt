// What the rules say of a message: refused, or accepted and with what.
ghost use Rattle.std.specs.Prelude.{◌≡◌};
ghost use Rattle.rules.specs.Verdict.{accepted, refused};

use answers::answer::Answer;
use answers::kind::Kind;
use answers::phase;
use channel::row::Row;
use header::ids::InterfaceId;
use words::layout::Part;

// What is done to the channel, beside its phase.
#[derive(Clone, Copy)]
pub enum Act {
    Keep,
    // the device's interface, and its NoAck milliseconds
    Device(InterfaceId, u32),
    Callback(Option<InterfaceId>),
    // a request takes a free row
    Take(usize, Row),
    // a completion frees one
    Free(usize),
    // a cancel marks one (02 R-2)
    Mark(usize),
    Empty,
}

// An accepted message: what its entry says (01 "Journal"), where its payload lies, the phase after it, and what is done.
#[derive(Clone, Copy)]
pub struct Accepted {
    // a number: 12, an accepted transfer out with NoAck, is no `Kind`
    pub kind: u8,
    pub request: u32,
    pub cause: u32,
    pub size: u32,
    pub payload: Part,
    pub phase: u8,
    pub act: Act,
}

// A refused message: its kind, if it has one, and why.
#[derive(Clone, Copy)]
pub struct Refusal {
    pub kind: Option<Kind>,
    pub answer: Answer,
}

pub(crate) fn refuse(kind: Kind, answer: Answer) -> Result<Accepted, Refusal>
    ensures { result ≡ refused kind answer }
{
    Err(Refusal {
        kind: Some(kind),
        answer,
    })
}

pub(crate) fn accept(
    kind: Kind,
    request: u32,
    cause: u32,
    size: u32,
    payload: Part,
    act: Act,
) -> Result<Accepted, Refusal>
    ensures { result ≡ accepted kind request cause size payload act }
{
    Ok(Accepted {
        kind: u8::from(kind),
        request,
        cause,
        size,
        payload,
        phase: phase::of(kind).after,
        act,
    })
}
