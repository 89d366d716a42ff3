// What is found in a channel's rows, and what is done to the channel.
ghost use Rattle.std.specs.Prelude.{◌≡◌};
ghost use Rattle.turn.specs.Store.{done, here_of, seen_of, stored};

use channel::channel::{Channel, empty, mark, put};
use channel::row::Row;
use requests::open::{Held, under};
use rows::search::{count_open, lowest_free};
use rules::decide::Seen;
use rules::verdict::Act;
use wire::message::{Asked, Unfit};

// What is open under the RequestId of what a message asks.
#[tactic(auto, unfolding(crate::specs::Store::here_of))]
fn here(c: Channel, asked: Result<Asked, Unfit>) -> Held
    ensures { result ≡ here_of c asked }
{
    match asked {
        Ok(Asked::IoControl(r) | Asked::TransferIn(r) | Asked::TransferOut(r)) => {
            under(c, r.request)
        }
        Ok(Asked::Cancel(id)) => under(c, id),
        Ok(Asked::IoCompletion(d)) => under(c, d.request),
        Ok(Asked::UrbCompletion(d) | Asked::UrbCompletionNoData(d)) => under(c, d.request),
        Ok(Asked::Step | Asked::Device(_, _) | Asked::Callback(_) | Asked::Retract) | Err(_) => {
            Held::Nothing
        }
    }
}

pub(crate) fn see(c: Channel, asked: Result<Asked, Unfit>) -> Seen
    ensures { result ≡ seen_of c asked }
{
    Seen {
        here: here(c, asked),
        free: lowest_free(c),
        count: count_open(c),
    }
}

// What a message's verdict has done to its channel, but for the phase.
fn act_on(c: Channel, act: Act) -> Channel
    ensures { result ≡ done c act }
{
    match act {
        Act::Keep => c,
        Act::Device(id, ms) => Channel {
            device: Some(id),
            jitter: ms,
            ..c
        },
        Act::Callback(callback) => Channel { callback, ..c },
        Act::Take(at, row) => put(c, at, row),
        Act::Free(at) => put(c, at, Row::FREE),
        Act::Mark(at) => mark(c, at),
        Act::Empty => empty(c),
    }
}

// The channel after an accepted message.
#[tactic(auto, unfolding(crate::specs::Store::stored))]
pub(crate) fn keep(c: Channel, phase: u8, act: Act) -> Channel
    ensures { result ≡ stored c phase act }
{
    Channel {
        phase,
        ..act_on(c, act)
    }
}
