// The line of a call.
ghost use Rattle.std.specs.Prelude.{◌≤◌, length};

use pieces::piece;
use pieces::piece::Unwritten;

pub(crate) fn line(written: Result<usize, Unwritten>, room: &[u8]) {
    io::print_decimal(1, u64::from(piece::number(written)));
    io::write_all(1, b" ");
    io::print_decimal(1, written.unwrap_or(0) as u64);
    io::write_all(1, b" ");
    hex(room);
    io::write_all(1, b"\n");
}

fn digit(n: u8) -> u8 {
    b"0123456789abcdef"[(n % 16) as usize]
}

fn hex_chunk(bytes: &[u8])
    requires { length bytes.now ≤ 2048 }
{
    let mut text = io::buffer();
    let digits = text.chunks_exact_mut(2);
    for (pair, b) in digits.zip(bytes) {
        pair[0] = digit(*b / 16);
        pair[1] = digit(*b);
    }
    io::write_all(1, &text[..2 * bytes.len()]);
}

// Prints bytes in hex, as many at a time as a buffer holds the digits of.
fn hex(bytes: &[u8]) {
    for chunk in bytes.chunks(2048) {
        hex_chunk(chunk);
    }
}
