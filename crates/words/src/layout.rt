// What the size readers share: a part of a message, what may break, and the tests that most of them are made of.

ghost use Rattle.std.specs.Prelude.{◌≡◌, Ok};
ghost use Rattle.words.specs.Layout.{field, ended, agrees, filled};

use crate::numbers::rest;

// A run of bytes of the message, by its place: nothing is copied. No slice: what is asked, decided and shown of a message outlives no borrow of it so.
#[derive(Clone, Copy)]
pub struct Part {
    pub start: usize,
    pub size: usize,
}

impl Part {
    // no bytes, at the message's start
    pub const EMPTY: Part = Part { start: 0, size: 0 };
}

// Why sizes do not add up, and at which byte of the message.
#[derive(Clone, Copy)]
pub enum Fault {
    // a field, or a counted run, needs more bytes than are left: the byte at which it starts
    RanOut(usize),
    // a size inside the message is not the one that its content has: where what it measures starts, or a Cb that is too small
    Disagrees(usize),
    // bytes behind the last field: the first of them
    LeftOver(usize),
}

// Holds a field, or a counted run, of n bytes against the message.
pub fn field(m: &[u8], at: usize, n: usize) -> Result<(), Fault>
    ensures { result ≡ field m.now at n (Ok tt) }
{
    if rest(m, at) < n {
        return Err(Fault::RanOut(at));
    }
    Ok(())
}

// Holds the message's end against it: no byte stands from a place on.
pub fn ended(m: &[u8], at: usize) -> Result<(), Fault>
    ensures { result ≡ ended m.now at (Ok tt) }
{
    if 0 < rest(m, at) {
        return Err(Fault::LeftOver(at));
    }
    Ok(())
}

// Holds a size inside the message against the one that its content has.
pub fn agrees(test: bool, at: usize) -> Result<(), Fault>
    ensures { result ≡ agrees test at (Ok tt) }
{
    if !test {
        return Err(Fault::Disagrees(at));
    }
    Ok(())
}

// Holds what was read up to a place against the place up to which it was set aside: no byte between the two.
pub fn filled(at: usize, end: usize) -> Result<(), Fault>
    ensures { result ≡ filled at end (Ok tt) }
{
    if at < end {
        return Err(Fault::LeftOver(at));
    }
    Ok(())
}
