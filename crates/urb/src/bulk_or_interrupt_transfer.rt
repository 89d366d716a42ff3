// TS_URB_BULK_OR_INTERRUPT_TRANSFER (000 2.2.9.7).
//
//   24  PipeHandle     4
//   28  TransferFlags  4
ghost use Rattle.std.specs.Prelude.{◌≡◌};
ghost use Rattle.urb.specs.TsUrb.{sized, bulk_or_interrupt_transfer};

use crate::ts_urb::{Urb, sized};
use words::layout::Fault;
use words::numbers::u32_at;

#[derive(Clone, Copy)]
pub struct BulkOrInterruptTransfer {
    pub pipe: u32,
    pub flags: u32,
}

impl BulkOrInterruptTransfer {
    pub const FUNCTION: u32 = 0x0009;

    pub const SIZE: usize = 16;
}

pub(crate) fn read(u: &[u8]) -> Result<(Urb, usize), Fault>
    ensures { result ≡ sized bulk_or_interrupt_transfer u.now }
{
    let transfer = BulkOrInterruptTransfer {
        pipe: u32_at(u, 24),
        flags: u32_at(u, 28),
    };
    sized(
        u,
        BulkOrInterruptTransfer::SIZE,
        Urb::BulkOrInterruptTransfer(transfer),
    )
}
