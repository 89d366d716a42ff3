// TS_URB_PIPE_REQUEST (000 2.2.9.4), of two functions.
//
//   24  PipeHandle  4
ghost use Rattle.std.specs.Prelude.{◌≡◌};
ghost use Rattle.urb.specs.TsUrb.{sized, abort_pipe};

use crate::ts_urb::{Urb, sized};
use words::layout::Fault;
use words::numbers::u32_at;

#[derive(Clone, Copy)]
pub struct PipeRequest {
    pub pipe: u32,
}

impl PipeRequest {
    pub const ABORT_PIPE: u32 = 0x0002;

    pub const SYNC_RESET_PIPE_AND_CLEAR_STALL: u32 = 0x001E;

    pub const SIZE: usize = 12;
}

pub(crate) fn read(u: &[u8]) -> Result<(Urb, usize), Fault>
    ensures { result ≡ sized abort_pipe u.now }
{
    let request = PipeRequest {
        pipe: u32_at(u, 24),
    };
    sized(u, PipeRequest::SIZE, Urb::PipeRequest(request))
}
