// Requests (kinds 8 to 12): answers 9 and 10, and the row that a request takes.
ghost use Rattle.std.specs.Prelude.{◌≡◌};
ghost use Rattle.rules.specs.Request.{opened, taken, transfer_out_decided, unacknowledged};

use crate::verdict;
use crate::verdict::{Accepted, Act, Refusal};
use answers::answer::Answer;
use answers::kind::Kind;
use answers::phase;
use channel::row::{Open, Row, Sort};
use requests::open::Held;
use wire::message::Request;

// The kind of an accepted transfer out with NoAck.
const NO_ACK: u8 = 12;

// The open request that a row holds from here on, until it is completed or withdrawn.
#[tactic(auto, unfolding(crate::specs::Request::opened))]
pub(crate) fn open_as(r: Request, number: u32) -> Open
    ensures { result ≡ opened r number }
{
    Open {
        request: r.request,
        number,
        size: r.size,
        marked: false,
    }
}

// A request takes the lowest free row, unless its id is open (9) or no row is free (10).
#[tactic(auto, unfolding(crate::specs::Request::taken))]
pub(crate) fn take(
    kind: Kind,
    r: Request,
    sort: Sort,
    here: Held,
    free: Option<usize>,
) -> Result<Accepted, Refusal>
    ensures { result ≡ taken kind r sort here free }
{
    let Held::Nothing = here else {
        return verdict::refuse(kind, Answer::AlreadyOpen);
    };
    let Some(at) = free else {
        return verdict::refuse(kind, Answer::Full);
    };
    let take = Act::Take(at, Row { sort });
    verdict::accept(kind, r.request.number(), 0, r.size, r.payload, take)
}

// A transfer out with NoAck takes no row and skips 9 and 10. A device of 0 NoAck milliseconds bars it.
fn no_ack(kind: Kind, r: Request, jitter: u32) -> Result<Accepted, Refusal>
    ensures { result ≡ unacknowledged kind r jitter }
{
    if jitter == 0 {
        return verdict::refuse(kind, Answer::Value);
    }
    Ok(Accepted {
        kind: NO_ACK,
        request: r.request.number(),
        cause: 0,
        size: r.size,
        payload: r.payload,
        phase: phase::of(kind).after,
        act: Act::Keep,
    })
}

pub(crate) fn transfer_out(
    kind: Kind,
    r: Request,
    number: u32,
    jitter: u32,
    here: Held,
    free: Option<usize>,
) -> Result<Accepted, Refusal>
    ensures { result ≡ transfer_out_decided kind r number jitter here free }
{
    if r.noack {
        return no_ack(kind, r, jitter);
    }
    take(kind, r, Sort::Out(open_as(r, number)), here, free)
}
