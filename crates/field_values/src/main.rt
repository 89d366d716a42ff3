// Says of each call on standard input what the writer makes of it, one line a call: FORMAT.md has both. It ends at the first call that is none, or that is cut.
#![tactic(auto)]

use header::ids::MessageId;
use pieces::interface;
use pieces::piece::Unwritten;
use words::numbers::u32_at;
use writer::message;

mod fields;
mod text;
mod transfer;

fn main() {
    let mut lent = [0u8; 70000];
    let mut room = [0u8; 70000];
    calls(&mut lent, &mut room);
}

// No input has as many calls as a number of 64 bits counts.
fn calls(lent: &mut [u8], room: &mut [u8]) {
    for _ in 0..u64::MAX {
        if !call(lent, room) {
            return;
        }
    }
}

// Reads the next call and prints its line. False where there is none.
fn call(lent: &mut [u8], room: &mut [u8]) -> bool {
    let mut head = [0u8; 100];
    if io::read_full(0, &mut head) < 100 {
        return false;
    }
    let size = u32_at(&head, 4) as usize;
    let count = u32_at(&head, 8) as usize;
    if !is_kind(u32_at(&head, 0)) || room.len() < size || lent.len() < count {
        return false;
    }
    with_lent(&head, &mut lent[..count], &mut room[..size])
}

fn is_kind(kind: u32) -> bool {
    matches!(kind, 0..=11 | 13..=17)
}

// The lent bytes fill `lent`. False where the input ends in them.
fn with_lent(head: &[u8], lent: &mut [u8], room: &mut [u8]) -> bool {
    if io::read_full(0, lent) < lent.len() {
        return false;
    }
    room.fill(0xA5);
    let written = write(head, lent, room);
    text::line(written, room);
    true
}

fn write(head: &[u8], lent: &[u8], room: &mut [u8]) -> Result<usize, Unwritten> {
    let kind = u32_at(head, 0);
    if kind == 0 {
        return one_interface(lent, room);
    }
    let f = fields::of(kind, head).ok_or(Unwritten::Value)?;
    message::write(MessageId::read(head, 16), f, lent, room)
}

// The lent bytes as numbers; one more than the most that are taken stands for all above.
fn one_interface(lent: &[u8], room: &mut [u8]) -> Result<usize, Unwritten> {
    const READ: usize = interface::MOST_NUMBERS + 1;
    let mut numbers = [0u32; READ];
    let n = (lent.len() / 4).min(READ);
    for (number, word) in numbers.iter_mut().zip(lent.chunks_exact(4)) {
        *number = u32_at(word, 0);
    }
    interface::write(&numbers[..n], room)
}
