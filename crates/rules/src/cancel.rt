// Cancel (kind 13), as 02 R-2 has it: a completion may be on its way already, so the row stays open for it.
ghost use Rattle.std.specs.Prelude.{◌≡◌};
ghost use Rattle.rules.specs.Cancel.{accepted_cancel, cancelled, marks};

use crate::verdict;
use crate::verdict::{Accepted, Act, Refusal};
use answers::kind::Kind;
use channel::row::Open;
use header::ids::RequestId;
use requests::open::Held;
use words::layout::Part;

// A cancel that gets as far as the rows is accepted, with its id, no size and no payload.
fn accept(kind: Kind, id: RequestId, cause: u32, act: Act) -> Result<Accepted, Refusal>
    ensures { result ≡ accepted_cancel kind id cause act }
{
    verdict::accept(kind, id.number(), cause, 0, Part::EMPTY, act)
}

// The first cancel of an open request marks its row and names it; a later one does neither.
fn mark(kind: Kind, id: RequestId, at: usize, o: Open) -> Result<Accepted, Refusal>
    ensures { result ≡ marks kind id at o }
{
    if o.marked {
        return accept(kind, id, 0, Act::Keep);
    }
    accept(kind, id, o.number, Act::Mark(at))
}

pub(crate) fn cancel(kind: Kind, id: RequestId, here: Held) -> Result<Accepted, Refusal>
    ensures { result ≡ cancelled kind id here }
{
    match here {
        Held::Nothing => accept(kind, id, 0, Act::Keep),
        Held::Io(at, o) | Held::In(at, o) | Held::Out(at, o) => mark(kind, id, at, o),
    }
}
