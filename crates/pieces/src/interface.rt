// One TS_USBD_INTERFACE_INFORMATION (000 2.2.9.1.2) with its pipes (000 2.2.9.1.3), out of plain numbers. A list of interfaces is one behind the other, and is
// then a part of the bytes that a bench lends for the message.
//
// The numbers, in rows of three:
//    NumberOfPipesExpected  InterfaceNumber      AlternateSetting      the interface
//    MaximumPacketSize      MaximumTransferSize  PipeFlags             a pipe, and again for each
//
// Length and NumberOfPipes are computed: they are 12 times the rows and the rows but one.
ghost use Rattle.std.specs.Prelude.{◌≡◌, true, ◌+◌, ◌*◌, ◌-◌, ◌/◌, ◌%◌, ◌≤◌, length};
ghost use Rattle.words.specs.Written.{written};
ghost use Rattle.pieces.specs.Pieces.{buffer_by};
ghost use Rattle.pieces.specs.Interface.{interface_bytes, interface_written, narrow_from, numbers_allowed, numbers_bytes};

use crate::piece::{Unwritten, put_word, put_words};

// An interface's numbers and those of 30 pipes.
pub const MOST_NUMBERS: usize = 93;

// Whether each pipe's MaximumPacketSize goes into its two bytes.
fn narrow(numbers: &[u32]) -> bool
    requires whole { 3 ≤ length numbers.now }
    requires rows { length numbers.now % 3 ≡ 0 }
    ensures { result ≡ narrow_from numbers.now 3 (length numbers.now / 3 - 1) }
{
    numbers.iter().skip(3).step_by(3).all(|size| *size <= 65535)
}

#[tactic(auto, unfolding(crate::specs::Interface::numbers_allowed))]
fn allowed(numbers: &[u32]) -> bool
    ensures value { result ≡ numbers_allowed numbers.now }
    ensures whole { result ≡ true → 3 ≤ length numbers.now }
{
    let n = numbers.len();
    3 <= n
        && n <= MOST_NUMBERS
        && n % 3 == 0
        && numbers[0] <= 65535
        && numbers[1] <= 255
        && numbers[2] <= 255
        && narrow(numbers)
}

// Numbers as words from a place on.
#[tactic(auto, using(crate::proofs::Numbers::numbers_step, crate::proofs::Numbers::numbers_end))]
fn put_numbers(numbers: &[u32], buf: &mut [u8], at: usize)
    requires { at + 4 * length numbers.now ≤ length buf.old }
    ensures { buf.new ≡ written buf.old at (numbers_bytes numbers.now) }
{
    for (i, n) in numbers.iter().enumerate() {
        put_word(buf, at + 4 * i, *n as usize);
    }
}

// The interface into a buffer of its size.
fn put(numbers: &[u32], buf: &mut [u8])
    requires whole { 3 ≤ length numbers.now }
    requires size { length buf.old ≡ 4 * length numbers.now }
    ensures { buf.new ≡ interface_bytes numbers.now }
{
    let n = numbers.len();
    // Length and NumberOfPipesExpected; InterfaceNumber and AlternateSetting, each of one byte; NumberOfPipes
    let first = 4 * n + 65536 * numbers[0] as usize;
    let second = numbers[1] as usize + 256 * numbers[2] as usize;
    put_words(buf, 0, first, second, n / 3 - 1);
    put_numbers(&numbers[3..], buf, 12);
}

// Writes one interface to a buffer's start, and says how long it is. The buffer stays as it was lent where it is refused, and behind it.
#[tactic(auto, unfolding(crate::specs::Interface::interface_written))]
pub fn write(numbers: &[u32], buf: &mut [u8]) -> Result<usize, Unwritten>
    ensures { (result ≡ interface_written numbers.now (length buf.old)) × (buf.new ≡ buffer_by (interface_bytes numbers.now) buf.old (interface_written numbers.now (length buf.old))) }
{
    if !allowed(numbers) {
        return Err(Unwritten::Value);
    }
    let n = 4 * numbers.len();
    if buf.len() < n {
        return Err(Unwritten::Room);
    }
    put(numbers, &mut buf[..n]);
    Ok(n)
}
