// Copies a capture from standard input to standard output, where each message that passes checks 3 to 8 is made anew: written from the fields that are read in it. So what
// comes out is what went in, but for padding, which is written 0. All else is copied as it came: refused messages, records that close, and a record that is cut.
#![tactic(auto)]

ghost use Rattle.std.specs.Prelude.{◌≤◌, IfSome};

use answers::kind::Kind;
use fields::message::read;
use header::ids::MessageId;
use journal::record;
use journal::record::HEAD;
use pieces::piece::LONGEST;
use table::entry::Close;
use table::table::{Table, close, judge, open};
use writer::message::write;

mod kind;

// The longest record.
const RECORD: usize = HEAD + LONGEST;

fn main() {
    let mut bytes = [0u8; RECORD];
    let mut made = [0u8; LONGEST];
    records(&mut bytes, &mut made);
}

// No input has as many records as a number of 64 bits counts.
fn records(bytes: &mut [u8; RECORD], made: &mut [u8; LONGEST]) {
    let mut t = open(1);
    for _ in 0..u64::MAX {
        let Some(size) = fetch(bytes) else {
            return;
        };
        t = of_record(t, &bytes[..size], made);
    }
}

// Reads a record to the front of the bytes, and says how long it is. Where the input ends before the record does, what there is of it is copied.
fn fetch(bytes: &mut [u8; RECORD]) -> Option<usize>
    ensures { IfSome result (λ n. n ≤ 65547) }
{
    let head = io::read_full(0, &mut bytes[..HEAD]);
    if head < HEAD {
        io::write_all(1, &bytes[..head]);
        return None;
    }
    let size = HEAD + usize::from(u16::from_le_bytes([bytes[2], bytes[3]]));
    let end = HEAD + io::read_full(0, &mut bytes[HEAD..size]);
    if end < size {
        io::write_all(1, &bytes[..end]);
        return None;
    }
    Some(size)
}

// The table afterwards.
fn of_record(t: Table, bytes: &[u8], made: &mut [u8; LONGEST]) -> Table {
    let Some(h) = record::at_front(bytes) else {
        return t;
    };
    if h.side == Close::SIDE {
        io::write_all(1, bytes);
        return close(t, h.channel, h.stamp).table;
    }
    let m = &bytes[HEAD..];
    let j = judge(t, h.channel, h.side, h.stamp, m);
    match kind::of(&j) {
        None => {
            io::write_all(1, bytes);
        }
        Some(k) => {
            io::write_all(1, &bytes[..HEAD]);
            anew(k, m, made);
        }
    }
    j.table
}

// No message that passes is refused by the writer: if one were, it would be missing.
fn anew(kind: Kind, m: &[u8], made: &mut [u8; LONGEST]) {
    let size = write(MessageId::read(m, 4), read(kind, m), m, made).unwrap_or(0);
    if let Some(written) = made.get(..size) {
        io::write_all(1, written);
    }
}
