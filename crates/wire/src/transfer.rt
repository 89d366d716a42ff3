// What TRANSFER_IN_REQUEST and TRANSFER_OUT_REQUEST begin with.
//
//   12  CbTsUrb           4  at least 8
//   16  TsUrb             CbTsUrb
//    e  OutputBufferSize  4
ghost use Rattle.std.specs.Prelude.{◌≡◌};
ghost use Rattle.wire.specs.Transfer.{transfer_of, output_of};

use urb::ts_urb;
use urb::ts_urb::TsUrb;
use words::layout::{Fault, agrees, field};
use words::numbers::u32_at;

#[derive(Clone, Copy)]
pub struct Transfer {
    pub urb: TsUrb,
    // where the TsUrb's last field ends, and where the TsUrb ends
    pub last: usize,
    pub end: usize,
    pub size: u32,
    // the byte behind OutputBufferSize
    pub after: usize,
}

#[tactic(auto, unfolding(crate::specs::Transfer::transfer_of, crate::specs::Transfer::transfer_with))]
pub(crate) fn read(m: &[u8]) -> Result<Transfer, Fault>
    ensures { result ≡ transfer_of m.now }
{
    field(m, 12, 4)?;
    let size = u32_at(m, 12) as usize;
    agrees(8 <= size, 12)?;
    field(m, 16, size)?;
    let end = 16 + size;
    let (urb, last) = ts_urb::read(&m[..end])?;
    output(m, urb, last, end)
}

#[tactic(auto, unfolding(crate::specs::Transfer::output_of))]
fn output(m: &[u8], urb: TsUrb, last: usize, end: usize) -> Result<Transfer, Fault>
    ensures { result ≡ output_of m.now urb last end }
{
    field(m, end, 4)?;
    Ok(Transfer {
        urb,
        last,
        end,
        size: u32_at(m, end),
        after: end + 4,
    })
}
