// 01 "Payload": the input or output bytes of an accepted message, as a part of the message that was lent.
ghost use Rattle.std.specs.Prelude.{◌≡◌};
ghost use Rattle.payloads.specs.Payload.{behind, cut_of, payload_of, shown_by, shown_of, start_in, start_of};

use places::place::{no_place, used_up};
use rules::verdict::{Accepted, Refusal};
use table::table::Table;
use turn::step;
use words::layout::Part;

fn of_verdict(verdict: Result<Accepted, Refusal>) -> Part
    ensures { result ≡ shown_by verdict }
{
    match verdict {
        Err(_) => Part::EMPTY,
        Ok(a) => a.payload,
    }
}

// Where the payload lies; an empty part where the message is refused or has none.
#[tactic(auto, unfolding(crate::specs::Payload::shown_of))]
fn shown(table: Table, channel: u8, side: u8, m: &[u8]) -> Part
    ensures { result ≡ shown_of table channel side m.now }
{
    if used_up(table.next) || no_place(channel, side) {
        return Part::EMPTY;
    }
    let c = table.channels[channel as usize];
    of_verdict(step::judge(c, table.next, side, m))
}

// The bytes of a part. A part that would reach beyond the message gives the empty part.
#[tactic(auto, unfolding(crate::specs::Payload::cut_of, crate::specs::Payload::start_in))]
fn cut(m: &[u8], part: Part) -> &[u8]
    ensures bytes { result.now ≡ cut_of m.now part }
    ensures place { result.ref_ptr ≡ behind m.entry.ref_ptr (start_in m.now part) }
{
    if m.len() < part.start || m.len() - part.start < part.size {
        return &m[0..0];
    }
    &m[part.start..part.start + part.size]
}

// The payload of a message, against the table as it was before the message was judged. It uses no number.
#[tactic(auto, unfolding(crate::specs::Payload::payload_of, crate::specs::Payload::start_of))]
pub fn payload(table: Table, channel: u8, side: u8, m: &[u8]) -> &[u8]
    ensures bytes { result.now ≡ payload_of table channel side m.now }
    ensures place { result.ref_ptr ≡ behind m.entry.ref_ptr (start_of table channel side m.now) }
{
    cut(m, shown(table, channel, side, m))
}
