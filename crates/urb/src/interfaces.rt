// The interface list of a select URB: TS_USBD_INTERFACE_INFORMATION (000 2.2.9.1.2), each with its TS_USBD_PIPE_INFORMATION (000 2.2.9.1.3).
//
// An interface, 12 bytes and its pipes:       A pipe, 12 bytes:
//    0  Length                 2  12 + 12 n      0  MaximumPacketSize    2
//    2  NumberOfPipesExpected  2                 2  Padding              2
//    4  InterfaceNumber        1                 4  MaximumTransferSize  4
//    5  AlternateSetting       1                 8  PipeFlags            4
//    6  Padding                2
//    8  NumberOfPipes          4  n, at most 30
ghost use Rattle.std.specs.Prelude.{◌≡◌, ◌≤◌, ◌<◌};
ghost use Rattle.urb.specs.Interfaces.{interface_field, pipe_field, length_agrees, interfaces_of, pipes_of};

use crate::select_configuration::SelectConfiguration;
use words::layout::Fault;
use words::numbers::{rest, u16_at, u32_at};

#[derive(Clone, Copy)]
pub struct Interfaces {}

impl Interfaces {
    pub const MOST_PIPES: u32 = 30;
}

// The start of the field of an interface that `left` bytes no longer hold.
fn interface_field(left: usize) -> usize
    ensures { (result ≡ interface_field left) × (result ≤ left) }
{
    if left < 2 {
        return 0;
    }
    if left < 4 {
        return 2;
    }
    if left < 5 {
        return 4;
    }
    if left < 6 {
        return 5;
    }
    if left < 8 {
        return 6;
    }
    8
}

// The same of a pipe.
fn pipe_field(left: usize) -> usize
    ensures { (result ≡ pipe_field left) × (result ≤ left) }
{
    if left < 2 {
        return 0;
    }
    if left < 4 {
        return 2;
    }
    if left < 8 {
        return 4;
    }
    8
}

// Length is that of an interface with `pipes` pipes. The sum is of 64 bits, so that no pipe count makes it wrap.
fn length_agrees(told: u32, pipes: u32) -> bool
    ensures { result ≡ length_agrees told pipes }
{
    told as u64 == 12 + 12 * pipes as u64
}

// `count` interfaces from `at` on: where they end, and the largest NumberOfPipes among them. A message may announce any count, and a frame for each of them is more stack than it may take (docs/DECISIONS.md, 13). So
// the two readers below walk as many at a time as a list may have (01 "Bodies after the 12 bytes"): what is behind those only decides between 7 and 8.
pub fn list(s: &[u8], at: usize, count: u32) -> Result<(usize, u32), Fault>
    ensures { result ≡ interfaces_of s.now count 0 at }
{
    let mut start = at;
    let mut left = count;
    let mut most = 0;
    while SelectConfiguration::MOST_INTERFACES < left {
        let (end, pipes) = interface(s, start, SelectConfiguration::MOST_INTERFACES, most)?;
        start = end;
        left -= SelectConfiguration::MOST_INTERFACES;
        most = pipes;
    }
    interface(s, start, left, most)
}

// `left` interfaces from `at` on. The largest pipe count so far is `most`. Each interface takes a frame of each of the two readers, so `left` bounds their depth.
#[cycle(interface_pipe)]
pub(crate) fn interface(s: &[u8], at: usize, left: u32, most: u32) -> Result<(usize, u32), Fault>
    requires { left ≤ 32 }
    ensures { result ≡ interfaces_of s.now left most at }
{
    if left == 0 {
        return Ok((at, most));
    }
    let bytes = rest(s, at);
    if bytes < 12 {
        return Err(Fault::RanOut(at + interface_field(bytes)));
    }
    let pipes = u32_at(s, at + 8);
    if length_agrees(u16_at(s, at), pipes) {
        pipe(s, at + 12, pipes, left - 1, most.max(pipes))
    } else {
        Err(Fault::Disagrees(at))
    }
}

// `pipes` pipes from `at` on, and then `left` interfaces. No field of a pipe is looked at, so they are passed by their number.
#[cycle(interface_pipe)]
fn pipe(s: &[u8], at: usize, pipes: u32, left: u32, most: u32) -> Result<(usize, u32), Fault>
    requires { left < 32 }
    ensures { result ≡ pipes_of s.now (interfaces_of s.now left most) pipes at }
{
    let bytes = rest(s, at);
    let whole = bytes / 12;
    if whole < pipes as usize {
        return Err(Fault::RanOut(at + 12 * whole + pipe_field(bytes % 12)));
    }
    interface(s, at + 12 * pipes as usize, left, most)
}
