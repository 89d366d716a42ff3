// The open request of an id.
ghost use Rattle.std.specs.Prelude.{◌≡◌, position};
ghost use Rattle.requests.specs.Held.{holds, held_by, held_of};

use crate::row;
use channel::channel::Channel;
use channel::row::{Open, Row, Sort};
use header::ids::RequestId;

// What is open under an id: nothing, or a request of one of the three sorts, and its row; four cases for one match, as in a row's sort.
#[derive(Clone, Copy)]
pub enum Held {
    Nothing,
    Io(usize, Open),
    In(usize, Open),
    Out(usize, Open),
}

// The lowest row that is the open request of an id.
fn find(c: Channel, id: RequestId) -> Option<usize>
    ensures { result ≡ position (holds id) c.rows }
{
    c.rows.iter().position(|r| row::has(*r, id))
}

// What a row says is open there.
fn as_held(at: usize, row: Row) -> Held
    ensures { result ≡ held_by at row.sort }
{
    match row.sort {
        Sort::Free => Held::Nothing,
        Sort::Io(o) => Held::Io(at, o),
        Sort::In(o) => Held::In(at, o),
        Sort::Out(o) => Held::Out(at, o),
    }
}

// What is open on the channel under an id.
#[tactic(auto, unfolding(crate::specs::Held::held_of), using(rows::proofs::Chains::first_is))]
pub fn under(c: Channel, id: RequestId) -> Held
    ensures { result ≡ held_of c id }
{
    match find(c, id) {
        Some(at) => as_held(at, c.rows[at]),
        None => Held::Nothing,
    }
}
