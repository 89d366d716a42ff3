// TS_URB_GET_CURRENT_FRAME_NUMBER (000 2.2.9.5): the header alone.
ghost use Rattle.std.specs.Prelude.{◌≡◌};
ghost use Rattle.urb.specs.TsUrb.{sized, get_current_frame_number};

use crate::ts_urb::{Urb, sized};
use words::layout::Fault;

#[derive(Clone, Copy)]
pub struct GetCurrentFrameNumber {}

impl GetCurrentFrameNumber {
    pub const FUNCTION: u32 = 0x0007;

    pub const SIZE: usize = 8;
}

pub(crate) fn read(u: &[u8]) -> Result<(Urb, usize), Fault>
    ensures { result ≡ sized get_current_frame_number u.now }
{
    sized(u, GetCurrentFrameNumber::SIZE, Urb::GetCurrentFrameNumber)
}
