// What URB_COMPLETION and URB_COMPLETION_NO_DATA begin with. Of a TS_URB_RESULT only its header (000 2.2.10.1.1) is read.
//
//   12  RequestId         4
//   16  CbTsUrbResult     4  at least 8
//   20  TsUrbResult       CbTsUrbResult
//         20  Size        2  CbTsUrbResult
//         22  Padding     2
//         24  UsbdStatus  4
//         28  the rest
//    e  HResult           4
//  e+4  OutputBufferSize  4
ghost use Rattle.std.specs.Prelude.{◌≡◌, ◌≤◌};
ghost use Rattle.wire.specs.TsUrbResult.{completion_of, completed_of};

use header::ids::RequestId;
use words::layout::{Fault, Part, agrees, field};
use words::numbers::{rest, u16_at, u32_at};

#[derive(Clone, Copy)]
pub struct TsUrbResult {
    pub size: u32,
    pub status: u32,
    pub rest: Part,
}

#[derive(Clone, Copy)]
pub struct Completion {
    pub request: RequestId,
    pub urb: TsUrbResult,
    pub result: u32,
    pub size: u32,
    // the byte behind OutputBufferSize
    pub after: usize,
}

#[tactic(auto, unfolding(crate::specs::TsUrbResult::completion_of, crate::specs::TsUrbResult::completion_with))]
pub(crate) fn read(m: &[u8]) -> Result<Completion, Fault>
    ensures { result ≡ completion_of m.now }
{
    field(m, 12, 4)?;
    field(m, 16, 4)?;
    let size = u32_at(m, 16);
    agrees(8 <= size, 16)?;
    field(m, 20, size as usize)?;
    agrees(u16_at(m, 20) == size, 20)?;
    completed(m, size)
}

// What follows a result of `size` bytes.
#[tactic(auto, unfolding(crate::specs::TsUrbResult::completed_of))]
fn completed(m: &[u8], size: u32) -> Result<Completion, Fault>
    requires { 8 ≤ size }
    ensures { result ≡ completed_of m.now size }
{
    let e = 20 + size as usize;
    field(m, e, 4)?;
    field(m, e + 4, 4)?;
    Ok(Completion {
        request: RequestId::read(m, 12),
        urb: TsUrbResult {
            size,
            status: u32_at(m, 24),
            rest: Part {
                start: 28,
                size: size as usize - 8,
            },
        },
        result: u32_at(m, e),
        size: u32_at(m, e + 4),
        after: e + 8,
    })
}
