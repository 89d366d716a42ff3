// ADD_VIRTUAL_CHANNEL (000 2.2.4.1), kind 5: a header and nothing behind it.
ghost use Rattle.std.specs.Prelude.{refl, true};
ghost use Rattle.wire.specs.Reading.{add_virtual_channel_body};
ghost use Rattle.wire.specs.declared.message.Asked.TheVariants as asks;
ghost use Rattle.wire.specs.AddVirtualChannel.{add_virtual_channel_of};

use crate::body::MessageBody;
use crate::message::Asked;
use words::layout::{Fault, ended};

#[derive(Clone, Copy)]
pub struct AddVirtualChannel {}

impl AddVirtualChannel {
    pub const MASK: u32 = 1;

    pub const INTERFACE: u32 = 1;

    pub const FUNCTION: u32 = 0x100;
}

impl MessageBody for AddVirtualChannel {
    ghost reading = { add_virtual_channel_of };

    ghost fits = { λ b. true };

    ghost asks = { λ b. asks.Step };

    ghost body = { λ b. add_virtual_channel_body };

    #[tactic(auto, unfolding(crate::specs::AddVirtualChannel::add_virtual_channel_of))]
    fn read(m: &[u8]) -> Result<AddVirtualChannel, Fault> {
        ended(m, 12)?;
        Ok(AddVirtualChannel {})
    }

    fn allowed(self) -> bool {
        true
    }

    fn asked(self) -> Asked {
        Asked::Step
    }

    ghost says = { λ b. refl };
}
