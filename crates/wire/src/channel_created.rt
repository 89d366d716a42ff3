// CHANNEL_CREATED (000 2.2.5.1), kind 3 from the server and kind 4 from the client.
//
//   12  MajorVersion  4  1
//   16  MinorVersion  4  0
//   20  Capabilities  4  0
ghost use Rattle.std.specs.Prelude.{refl};
ghost use Rattle.wire.specs.Reading.{channel_created_body};
ghost use Rattle.wire.specs.declared.message.Asked.TheVariants as asks;
ghost use Rattle.wire.specs.ChannelCreated.{channel_created_of, channel_created_allowed};

use crate::body::MessageBody;
use crate::message::Asked;
use words::layout::{Fault, ended, field};
use words::numbers::u32_at;

#[derive(Clone, Copy)]
pub struct ChannelCreated {
    pub major: u32,
    pub minor: u32,
    pub capabilities: u32,
}

impl ChannelCreated {
    pub const MASK: u32 = 1;
    // 01's table follows 000 2.2.5; 000 2.2.5.1 has the two the other way round (docs/DECISIONS.md, 1).
    pub const INTERFACE_BY_SERVER: u32 = 3;

    pub const INTERFACE_BY_CLIENT: u32 = 2;

    pub const FUNCTION: u32 = 0x100;
}

impl MessageBody for ChannelCreated {
    ghost reading = { channel_created_of };

    ghost fits = { channel_created_allowed };

    ghost asks = { λ b. asks.Step };

    ghost body = { channel_created_body };

    #[tactic(auto, unfolding(crate::specs::ChannelCreated::channel_created_of))]
    fn read(m: &[u8]) -> Result<ChannelCreated, Fault> {
        field(m, 12, 4)?;
        field(m, 16, 4)?;
        field(m, 20, 4)?;
        ended(m, 24)?;
        Ok(ChannelCreated {
            major: u32_at(m, 12),
            minor: u32_at(m, 16),
            capabilities: u32_at(m, 20),
        })
    }

    fn allowed(self) -> bool {
        self.major == 1 && self.minor == 0 && self.capabilities == 0
    }

    fn asked(self) -> Asked {
        Asked::Step
    }

    ghost says = { λ b. refl };
}
