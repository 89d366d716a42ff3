// A session in which one channel's rows fill up: 16 requests are open, a seventeenth is refused with 10, and after request 3 completes the next one
// takes row 3 (01 "Shown of the rules themselves"). Then request 5 is cancelled: its row is marked and stays open, so that another request is refused with 10 still, and takes row 5 once the
// completion has come (02 R-2). And one that comes to its limits: a message of 65,535 bytes, one of 65,536, which is refused with 4, and then a call for which no number is left, which
// gets 1; so does a call on a table opened at 0. No capture can ask for a 4 or, at its length, for a 1.
//
// A line a call: its answer, the next number after it, and then the 16 rows, each by the RequestId that it holds, with a star where it is marked, or by a dash where it is free.
#![tactic(auto)]

ghost use Rattle.std.specs.Prelude.{◌<◌, ◌≤◌};

use channel::channel::Channel;
use channel::row::{Open, Row, Sort};
use kinds::kind::Side;
use table::table::Table;

mod messages;

fn main() {
    let new = table::table::open(1);
    let ready = session(new);
    let full = fill(ready);
    let refused = request(full, 16);
    let done = complete(refused, 3);
    let again = request(done, 16);
    late_completion(again);
    limits();
}

fn late_completion(t: Table) {
    let marked = cancel(t, 5);
    let refused = request(marked, 17);
    let done = complete(refused, 5);
    request(done, 17);
}

// From this number on a session takes six, and the two long messages the last two.
fn limits() {
    let late = table::table::open(4294967287);
    let ready = session(late);
    let longest = long(ready, 0xE3, 65535);
    let refused = long(longest, 0xE4, 65536);
    request(refused, 1);
    let never = table::table::open(0);
    call(never, Side::Server, &messages::CAPABILITY_REQUEST);
}

// An IO control of so many bytes, of which 28 are not input; the second byte of its InputBufferSize is 0xFF, and this is the first.
fn long(t: Table, input: u8, size: usize) -> Table
    requires { size ≤ 65536 }
{
    // room for a message that is a byte too long
    let mut m = [0u8; 65536];
    m[0] = 0x04;
    m[3] = 0x40;
    m[8] = 0x02;
    m[9] = 0x01;
    m[16] = input;
    m[17] = 0xFF;
    call(t, Side::Server, &m[..size])
}

// From phase 0 to a device with a callback.
fn session(t: Table) -> Table {
    let capabilities = call(t, Side::Server, &messages::CAPABILITY_REQUEST);
    let answered = call(capabilities, Side::Client, &messages::CAPABILITY_RESPONSE);
    let created = call(answered, Side::Server, &messages::CHANNEL_CREATED_BY_SERVER);
    let both = call(created, Side::Client, &messages::CHANNEL_CREATED_BY_CLIENT);
    let added = call(both, Side::Client, &messages::ADD_DEVICE);
    call(added, Side::Server, &messages::REGISTER_REQUEST_CALLBACK)
}

// Requests 0 to 15.
fn fill(t: Table) -> Table {
    let mut now = t;
    for id in 0..16 {
        now = request(now, id);
    }
    now
}

fn request(t: Table, id: u8) -> Table {
    with_id(t, Side::Server, messages::IO_CONTROL, 24, id)
}

fn cancel(t: Table, id: u8) -> Table {
    with_id(t, Side::Server, messages::CANCEL_REQUEST, 12, id)
}

fn complete(t: Table, id: u8) -> Table {
    with_id(t, Side::Client, messages::IO_CONTROL_COMPLETION, 12, id)
}

// A message whose RequestId has this as its first byte.
fn with_id<const N: usize>(t: Table, side: Side, message: [u8; N], at: usize, id: u8) -> Table
    requires { at < N }
{
    let mut m = message;
    m[at] = id;
    call(t, side, &m)
}

// Judges a message on channel 0, and says what came of it.
fn call(t: Table, side: Side, m: &[u8]) -> Table {
    let j = table::table::judge(t, 0, u8::from(side), 0, m);
    let after = j.table;
    io::print_decimal(1, u64::from(u8::from(j.answer)));
    io::write_all(1, b" ");
    io::print_decimal(1, u64::from(after.next));
    rows(after.channels[0]);
    io::write_all(1, b"\n");
    after
}

fn rows(c: Channel) {
    for r in c.rows {
        io::write_all(1, b" ");
        row(r);
    }
}

fn row(r: Row) {
    match r.sort {
        Sort::Free => {
            io::write_all(1, b"-");
        }
        Sort::Io(o) | Sort::In(o) | Sort::Out(o) => id(o),
    }
}

fn id(o: Open) {
    io::print_decimal(1, u64::from(o.request.number()));
    if o.marked {
        io::write_all(1, b"*");
    }
}
