// TS_URB_ISOCH_TRANSFER (000 2.2.9.8).
//
//   24  PipeHandle       4
//   28  TransferFlags    4
//   32  StartFrame       4
//   36  NumberOfPackets  4  n, at most 1,024
//   40  ErrorCount       4
//   44  IsoPacket        12 n
ghost use Rattle.std.specs.Prelude.{◌≡◌};
ghost use Rattle.urb.specs.IsochTransfer.{isoch_transfer_of};

use crate::ts_urb::Urb;
use words::layout::{Fault, Part, agrees};
use words::numbers::{rest, u32_at};

#[derive(Clone, Copy)]
pub struct IsochTransfer {
    pub pipe: u32,
    pub flags: u32,
    pub start: u32,
    pub packets: u32,
    pub errors: u32,
    pub list: Part,
}

impl IsochTransfer {
    pub const FUNCTION: u32 = 0x000A;

    pub const MOST_PACKETS: u32 = 1024;
}

#[tactic(auto, unfolding(crate::specs::IsochTransfer::isoch_transfer_of))]
pub(crate) fn read(u: &[u8]) -> Result<(Urb, usize), Fault>
    ensures { result ≡ isoch_transfer_of u.now }
{
    let size = rest(u, 16);
    agrees(24 <= size, 16)?;
    let packets = u32_at(u, 36);
    let list = 12 * packets as usize;
    agrees(size == 28 + list, 16)?;
    let transfer = IsochTransfer {
        pipe: u32_at(u, 24),
        flags: u32_at(u, 28),
        start: u32_at(u, 32),
        packets,
        errors: u32_at(u, 40),
        list: Part {
            start: 44,
            size: list,
        },
    };
    Ok((Urb::IsochTransfer(transfer), u.len()))
}
