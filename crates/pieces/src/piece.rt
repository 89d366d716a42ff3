// What a message is written from: numbers of four bytes, and parts of bytes that the caller lends. A field of 000 that is narrower than four bytes stands beside
// others, or beside padding, with which it makes up four.
ghost use Rattle.std.specs.Prelude.{◌≡◌, ◌++◌, true, ◌+◌, ◌*◌, ◌/◌, ◌≤◌, length, Some};
ghost use Rattle.words.specs.Written.{written, word_bytes};
ghost use Rattle.pieces.specs.Pieces.{buffer_of, bytes_of, cut, encode, rows_from, lies_in, piece_lies, row_of, size_of, total_from, written_number, written_of};

use words::layout::Part;
use words::numbers::{u16_at, u32_at};

#[derive(Clone, Copy)]
pub enum Piece {
    Nothing,
    // the low 32 bits of a number
    Word(usize),
    // a part of the lent bytes as it stands there
    Run(Part),
    // a part of the lent bytes that is rows of 12: an interface, its pipes, the next interface. Their padding is written 0
    Interfaces(Part),
}

// Why a writer writes nothing.
#[derive(Clone, Copy)]
pub enum Unwritten {
    // a field outside its values, or a message over 65,535 bytes
    Value = 15,
    // the buffer is shorter than the message
    Room = 16,
}

// A row of an interface list as its three words, and how many pipes are to come behind it.
#[derive(Clone, Copy)]
pub struct Row {
    pub first: u32,
    pub second: u32,
    pub third: u32,
    pub pipes: u32,
}

// As many pieces as ADD_DEVICE has, which has the most.
pub const MOST: usize = 20;

// The longest message.
pub const LONGEST: usize = 65535;

// 02 R-1's number of the answer. A function and no `From`: no type in a Result is this crate's own, but for what it fails with.
pub fn number(written: Result<usize, Unwritten>) -> u32
    ensures { result ≡ written_number written }
{
    match written {
        Ok(_) => 0,
        Err(why) => why as u32,
    }
}

fn size(p: Piece) -> usize
    ensures { result ≡ size_of p }
{
    match p {
        Piece::Nothing => 0,
        Piece::Word(_) => 4,
        Piece::Run(part) => part.size,
        Piece::Interfaces(part) => part.size / 12 * 12,
    }
}

// Whether a part lies in n bytes.
fn lies(part: Part, n: usize) -> bool
    ensures { result ≡ lies_in n part }
{
    part.start <= n && part.size <= n - part.start
}

fn piece_lies(p: Piece, n: usize) -> bool
    ensures { result ≡ piece_lies n p }
{
    match p {
        Piece::Nothing | Piece::Word(_) => true,
        Piece::Run(part) | Piece::Interfaces(part) => lies(part, n),
    }
}

// What pieces add up to, whose parts are of n bytes.
#[tactic(auto, using(crate::proofs::Pieces::total_step, crate::proofs::Pieces::total_next, crate::proofs::Pieces::total_end))]
fn add_up(pieces: [Piece; MOST], n: usize) -> Option<usize>
    ensures { result ≡ total_from n 0 pieces }
{
    let mut sum: usize = 0;
    for p in pieces {
        let more = size(p);
        if !piece_lies(p, n) || LONGEST - sum < more {
            return None;
        }
        sum += more;
    }
    Some(sum)
}

#[tactic(auto, using(words::proofs::Written::written_four))]
pub(crate) fn put_word(buf: &mut [u8], at: usize, n: usize)
    requires { at + 4 ≤ length buf.old }
    ensures { buf.new ≡ written buf.old at (word_bytes n) }
{
    buf[at] = (n % 256) as u8;
    buf[at + 1] = (n / 256 % 256) as u8;
    buf[at + 2] = (n / 65536 % 256) as u8;
    buf[at + 3] = (n / 16777216 % 256) as u8;
}

// Three words, one behind the other.
pub(crate) fn put_words(buf: &mut [u8], at: usize, first: usize, second: usize, third: usize)
    requires { at + 12 ≤ length buf.old }
    ensures { buf.new ≡ written buf.old at (word_bytes first ++ (word_bytes second ++ word_bytes third)) }
{
    put_word(buf, at, first);
    put_word(buf, at + 4, second);
    put_word(buf, at + 8, third);
}

#[tactic(auto, using(crate::proofs::Pieces::run_put))]
fn put_run(lent: &[u8], part: Part, buf: &mut [u8], at: usize)
    requires lent_holds { part.start + part.size ≤ length lent.now }
    requires buf_holds { at + part.size ≤ length buf.old }
    ensures { buf.new ≡ written buf.old at (cut lent.now part) }
{
    buf[at..at + part.size].copy_from_slice(&lent[part.start..part.start + part.size]);
}

// The row at a place, of an interface where no pipe is to come.
fn row_at(lent: &[u8], at: usize, pipes: u32) -> Row
    requires { at + 12 ≤ length lent.now }
    ensures { result ≡ row_of lent.now at pipes }
{
    if pipes == 0 {
        return Row {
            first: u32_at(lent, at),
            second: u16_at(lent, at + 4),
            third: u32_at(lent, at + 8),
            pipes: u32_at(lent, at + 8),
        };
    }
    Row {
        first: u16_at(lent, at),
        second: u32_at(lent, at + 4),
        third: u32_at(lent, at + 8),
        pipes: pipes - 1,
    }
}

// The rows of a part of the lent bytes.
#[tactic(auto, using(crate::proofs::Pieces::rows_step, crate::proofs::Pieces::rows_end))]
fn put_interfaces(lent: &[u8], part: Part, buf: &mut [u8], at: usize)
    requires lent_holds { part.start + part.size ≤ length lent.now }
    requires buf_holds { at + part.size / 12 * 12 ≤ length buf.old }
    ensures { buf.new ≡ written buf.old at (rows_from lent.now (part.size / 12) 0 part.start) }
{
    let rows = part.size / 12;
    let mut pipes: u32 = 0;
    for i in 0..rows {
        let row = row_at(lent, part.start + 12 * i, pipes);
        put_words(
            buf,
            at + 12 * i,
            row.first as usize,
            row.second as usize,
            row.third as usize,
        );
        pipes = row.pipes;
    }
}

#[tactic(auto, unfolding(words::specs::Written::written))]
fn put(p: Piece, lent: &[u8], buf: &mut [u8], at: usize)
    requires lies { piece_lies (length lent.now) p ≡ true }
    requires buf_holds { at + size_of p ≤ length buf.old }
    ensures { buf.new ≡ written buf.old at (bytes_of lent.now p) }
{
    match p {
        Piece::Nothing => {}
        Piece::Word(n) => put_word(buf, at, n),
        Piece::Run(part) => put_run(lent, part, buf, at),
        Piece::Interfaces(part) => put_interfaces(lent, part, buf, at),
    }
}

#[tactic(auto, using(crate::proofs::Pieces::total_at, crate::proofs::Pieces::all_end))]
fn put_all(pieces: [Piece; MOST], lent: &[u8], buf: &mut [u8])
    requires { total_from (length lent.now) 0 pieces ≡ Some (length buf.old) }
    ensures { buf.new ≡ encode lent.now pieces }
{
    let mut at: usize = 0;
    for p in pieces {
        put(p, lent, buf, at);
        at += size(p);
    }
}

// Writes pieces to a buffer's start, and says how long they are. The buffer stays as it was lent where they are refused, and behind them.
#[tactic(auto, unfolding(crate::specs::Pieces::written_of, crate::specs::Pieces::buffer_of))]
pub fn write(pieces: [Piece; MOST], lent: &[u8], buf: &mut [u8]) -> Result<usize, Unwritten>
    ensures { (result ≡ written_of lent.now (length buf.old) pieces) × (buf.new ≡ buffer_of lent.now pieces buf.old) }
{
    let n = add_up(pieces, lent.len()).ok_or(Unwritten::Value)?;
    if buf.len() < n {
        return Err(Unwritten::Room);
    }
    put_all(pieces, lent, &mut buf[..n]);
    Ok(n)
}
