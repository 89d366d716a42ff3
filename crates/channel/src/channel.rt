// What a channel keeps.
ghost use Rattle.std.specs.Prelude.{◌≡◌};
ghost use Rattle.channel.specs.Rows.{with_row, with_mark, emptied, new_channel};

use crate::row;
use crate::row::Row;
use header::ids::InterfaceId;

#[derive(Clone, Copy)]
pub struct Channel {
    // any number and no enum: a call is answered on every table (demand 1)
    pub phase: u8,
    pub device: Option<InterfaceId>,
    pub callback: Option<InterfaceId>,
    // the device's NoAck milliseconds
    pub jitter: u32,
    pub rows: [Row; 16],
}

// Phase 0, nothing known, no rows.
pub fn new() -> Channel
    ensures { result ≡ new_channel }
{
    Channel {
        phase: 0,
        device: None,
        callback: None,
        jitter: 0,
        rows: [Row::FREE; 16],
    }
}

// The channel with another row at a place; a place past the last row changes nothing.
pub fn put(mut c: Channel, at: usize, row: Row) -> Channel
    ensures { result ≡ with_row c at row }
{
    if at < c.rows.len() {
        c.rows[at] = row;
    }
    c
}

// The channel with the row at a place marked; a place past the last row changes nothing.
pub fn mark(c: Channel, at: usize) -> Channel
    ensures { result ≡ with_mark c at }
{
    match c.rows.get(at) {
        Some(row) => put(c, at, row::mark(*row)),
        None => c,
    }
}

// The channel with every row free.
pub fn empty(c: Channel) -> Channel
    ensures { result ≡ emptied c }
{
    let rows = [Row::FREE; 16];
    Channel { rows, ..c }
}
