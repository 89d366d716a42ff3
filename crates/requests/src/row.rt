// Whether a row is the open request of an id.
ghost use Rattle.std.specs.Prelude.{◌≡◌};
ghost use Rattle.requests.specs.Held.{holds};

use channel::row::{Row, Sort};
use header::ids::RequestId;

pub(crate) fn has(r: Row, id: RequestId) -> bool
    ensures { result ≡ holds id r }
{
    match r.sort {
        Sort::Free => false,
        Sort::Io(o) | Sort::In(o) | Sort::Out(o) => o.request == id,
    }
}
