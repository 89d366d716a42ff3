// Says of each message on standard input what the readers of `wire` make of it, one line a message.
//
// The input is a run of records, which `make` makes of cases.txt:
//
//    0  side                 1
//    1  device is known      1  0 where it is not
//    2  device               4
//    6  callback is known    1  0 where it is not
//    7  callback             4
//   11  size of the message  4
//   15  message
#![tactic(auto)]

use header::ids::InterfaceId;
use words::numbers::u32_at;

mod line;

ghost use Rattle.std.specs.Prelude.{◌<◌};

fn main() {
    // Longer than any message that a channel takes, so that a size past 65,535 can be read too.
    let mut space = [0u8; 66000];
    lines(&mut space);
}

// Nothing says that an input ends, so the records are counted up to a number that no input reaches.
fn lines(space: &mut [u8]) {
    for number in 1..1000000 {
        if !record(number, space) {
            return;
        }
    }
}

// The line of the next record. False where there is none, or where it is cut or does not fit.
fn record(number: u64, space: &mut [u8]) -> bool {
    let mut head = [0u8; 15];
    let got = io::read_full(0, &mut head);
    if got == 0 {
        return false;
    }
    io::print_decimal(1, number);
    let size = u32_at(&head, 11) as usize;
    if got < 15 || space.len() < size {
        return cut();
    }
    message(&head, &mut space[..size])
}

// Reads a message that fills `m`, and says what it is. False where the input ends in it.
fn message(head: &[u8; 15], m: &mut [u8]) -> bool {
    if io::read_full(0, m) < m.len() {
        return cut();
    }
    line::of_message(m, head[0], known(head, 1), known(head, 6));
    io::write_all(1, b"\n");
    true
}

fn cut() -> bool {
    io::write_all(1, b" cut\n");
    false
}

// The interface behind the byte at a place, which says whether it is known.
fn known(head: &[u8; 15], at: usize) -> Option<InterfaceId>
    requires { at < 15 }
{
    if head[at] == 0 {
        return None;
    }
    Some(InterfaceId::read(head, at + 1))
}
