// The rules' one call: what a message asks, and what was found in the channel's rows, give the answer (7 to 14, 0), the entry and what is done.
ghost use Rattle.std.specs.Prelude.{◌≡◌};
ghost use Rattle.wire.specs.Message.{empty_part};
ghost use Rattle.rules.specs.Verdict.{accepted};
ghost use Rattle.rules.specs.Decide.{decided};

use crate::verdict::{Accepted, Act, Refusal};
use crate::{cancel, completion, request, verdict};
use answers::answer::Answer;
use answers::kind::Kind;
use channel::row::Sort;
use requests::open::Held;
use wire::message::{Asked, Unfit};
use words::layout::Part;

// What was found in the rows: what is open under the message's RequestId, the lowest free row, how many are open.
#[derive(Clone, Copy)]
pub struct Seen {
    pub here: Held,
    pub free: Option<usize>,
    pub count: u32,
}

// A message of no request: its entry says no id and no cause, and it has no payload.
fn accept(kind: Kind, size: u32, act: Act) -> Result<Accepted, Refusal>
    ensures { result ≡ accepted kind 0 0 size empty_part act }
{
    verdict::accept(kind, 0, 0, size, Part::EMPTY, act)
}

// The number is the one that the call's entry gets; it is stored with a request, and no rule looks at it.
#[tactic(auto, unfolding(crate::specs::Decide::decided))]
pub fn decide(
    kind: Kind,
    asked: Result<Asked, Unfit>,
    number: u32,
    jitter: u32,
    seen: Seen,
) -> Result<Accepted, Refusal>
    ensures { result ≡ decided kind asked number jitter seen }
{
    let Seen { here, free, count } = seen;
    match asked {
        Err(Unfit::Sizes(_)) => verdict::refuse(kind, Answer::Sizes),
        Err(Unfit::Value) => verdict::refuse(kind, Answer::Value),
        Ok(Asked::Step) => accept(kind, 0, Act::Keep),
        Ok(Asked::Device(id, ms)) => accept(kind, 0, Act::Device(id, ms)),
        Ok(Asked::Callback(id)) => accept(kind, 0, Act::Callback(id)),
        Ok(Asked::IoControl(r)) => {
            request::take(kind, r, Sort::Io(request::open_as(r, number)), here, free)
        }
        Ok(Asked::TransferIn(r)) => {
            request::take(kind, r, Sort::In(request::open_as(r, number)), here, free)
        }
        Ok(Asked::TransferOut(r)) => request::transfer_out(kind, r, number, jitter, here, free),
        Ok(Asked::Cancel(id)) => cancel::cancel(kind, id, here),
        Ok(Asked::Retract) => accept(kind, count, Act::Empty),
        Ok(Asked::IoCompletion(c)) => completion::io(kind, c, here),
        Ok(Asked::UrbCompletion(c)) => completion::urb(kind, c, here),
        Ok(Asked::UrbCompletionNoData(c)) => completion::urb_no_data(kind, c, here),
    }
}
