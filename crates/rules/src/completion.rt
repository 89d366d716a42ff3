// 01 "Completions, cancel, retract": which request a completion may close, and with how much data.
ghost use Rattle.std.specs.Prelude.{◌≡◌};
ghost use Rattle.rules.specs.Completion.{result_agrees, closes, io_closed, io_completed, no_data_completed, urb_closed, urb_completed};

use crate::verdict;
use crate::verdict::{Accepted, Act, Refusal};
use answers::answer::Answer;
use answers::kind::Kind;
use channel::row::Open;
use header::ids::RequestId;
use requests::open::Held;
use wire::message::{IoCompleted, UrbCompleted};
use words::hresult;
use words::layout::Part;

// HRESULT_FROM_WIN32(ERROR_INSUFFICIENT_BUFFER)
const INSUFFICIENT_BUFFER: u32 = 0x8007_007A;

// The row of the request is freed, and the request's entry is the cause.
fn close(
    kind: Kind,
    at: usize,
    o: Open,
    id: RequestId,
    size: u32,
    payload: Part,
) -> Result<Accepted, Refusal>
    ensures { result ≡ closes kind at o id size payload }
{
    verdict::accept(kind, id.number(), o.number, size, payload, Act::Free(at))
}

// Whether the sizes of an IO completion agree with its HResult.
fn agree(c: IoCompleted, o: Open) -> bool
    ensures { result ≡ result_agrees c o }
{
    if hresult::is_success(c.result) {
        c.information == c.size
    } else if c.result == INSUFFICIENT_BUFFER {
        c.size == o.size
    } else {
        c.size == 0
    }
}

fn io_close(kind: Kind, c: IoCompleted, at: usize, o: Open) -> Result<Accepted, Refusal>
    ensures { result ≡ io_closed kind c at o }
{
    if o.size < c.size {
        return verdict::refuse(kind, Answer::TooMuch);
    }
    if !agree(c, o) {
        return verdict::refuse(kind, Answer::ResultDisagrees);
    }
    close(kind, at, o, c.request, c.size, c.payload)
}

// Kind 15 closes IO requests.
pub(crate) fn io(kind: Kind, c: IoCompleted, here: Held) -> Result<Accepted, Refusal>
    ensures { result ≡ io_completed kind c here }
{
    match here {
        Held::Nothing => verdict::refuse(kind, Answer::NotOpen),
        Held::Io(at, o) => io_close(kind, c, at, o),
        Held::In(_, _) | Held::Out(_, _) => verdict::refuse(kind, Answer::WrongSort),
    }
}

// A completion of a transfer, of at most so much data.
fn urb_close(
    kind: Kind,
    c: UrbCompleted,
    most: u32,
    at: usize,
    o: Open,
) -> Result<Accepted, Refusal>
    ensures { result ≡ urb_closed kind c most at o }
{
    if most < c.size {
        return verdict::refuse(kind, Answer::TooMuch);
    }
    close(kind, at, o, c.request, c.size, c.payload)
}

// Kind 16 closes transfers in.
pub(crate) fn urb(kind: Kind, c: UrbCompleted, here: Held) -> Result<Accepted, Refusal>
    ensures { result ≡ urb_completed kind c here }
{
    match here {
        Held::Nothing => verdict::refuse(kind, Answer::NotOpen),
        Held::In(at, o) => urb_close(kind, c, o.size, at, o),
        Held::Io(_, _) | Held::Out(_, _) => verdict::refuse(kind, Answer::WrongSort),
    }
}

// Kind 17 closes both transfers; for a transfer in its size is 0.
pub(crate) fn urb_no_data(kind: Kind, c: UrbCompleted, here: Held) -> Result<Accepted, Refusal>
    ensures { result ≡ no_data_completed kind c here }
{
    match here {
        Held::Nothing => verdict::refuse(kind, Answer::NotOpen),
        Held::Io(_, _) => verdict::refuse(kind, Answer::WrongSort),
        Held::In(at, o) => urb_close(kind, c, 0, at, o),
        Held::Out(at, o) => urb_close(kind, c, o.size, at, o),
    }
}
