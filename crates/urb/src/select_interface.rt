// TS_URB_SELECT_INTERFACE (000 2.2.9.3).
//
//   24  ConfigurationHandle  4
//   28  one interface
ghost use Rattle.std.specs.Prelude.{◌≡◌};
ghost use Rattle.urb.specs.SelectInterface.{select_interface_of};

use crate::interfaces;
use crate::ts_urb::Urb;
use words::layout::{Fault, Part, field};
use words::numbers::u32_at;

#[derive(Clone, Copy)]
pub struct SelectInterface {
    pub handle: u32,
    pub interface: Part,
    // its NumberOfPipes
    pub pipes: u32,
}

impl SelectInterface {
    pub const FUNCTION: u32 = 0x0001;
}

#[tactic(auto, unfolding(crate::specs::SelectInterface::select_interface_of))]
pub(crate) fn read(u: &[u8]) -> Result<(Urb, usize), Fault>
    ensures { result ≡ select_interface_of u.now }
{
    field(u, 24, 4)?;
    let handle = u32_at(u, 24);
    let (end, pipes) = interfaces::interface(u, 28, 1, 0)?;
    let interface = SelectInterface {
        handle,
        interface: Part {
            start: 28,
            size: end - 28,
        },
        pipes,
    };
    Ok((Urb::SelectInterface(interface), end))
}
