// TS_URB_CONTROL_TRANSFER (000 2.2.9.6).
//
//   24  PipeHandle     4
//   28  TransferFlags  4
//   32  SetupPacket    8
ghost use Rattle.std.specs.Prelude.{◌≡◌};
ghost use Rattle.urb.specs.TsUrb.{sized, control_transfer};

use crate::ts_urb::{Urb, sized};
use words::layout::{Fault, Part};
use words::numbers::u32_at;

#[derive(Clone, Copy)]
pub struct ControlTransfer {
    pub pipe: u32,
    pub flags: u32,
    pub setup: Part,
}

impl ControlTransfer {
    pub const FUNCTION: u32 = 0x0008;

    pub const SIZE: usize = 24;
}

pub(crate) fn read(u: &[u8]) -> Result<(Urb, usize), Fault>
    ensures { result ≡ sized control_transfer u.now }
{
    let transfer = ControlTransfer {
        pipe: u32_at(u, 24),
        flags: u32_at(u, 28),
        setup: Part { start: 32, size: 8 },
    };
    sized(u, ControlTransfer::SIZE, Urb::ControlTransfer(transfer))
}
