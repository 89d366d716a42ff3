// RIM_EXCHANGE_CAPABILITY_REQUEST (000 2.2.3.1), kind 1.
//
//   12  CapabilityValue  4  1
ghost use Rattle.std.specs.Prelude.{refl};
ghost use Rattle.wire.specs.Reading.{capability_request_body};
ghost use Rattle.wire.specs.declared.message.Asked.TheVariants as asks;
ghost use Rattle.wire.specs.CapabilityRequest.{capability_request_of, capability_request_allowed};

use crate::body::MessageBody;
use crate::message::Asked;
use words::layout::{Fault, ended, field};
use words::numbers::u32_at;

#[derive(Clone, Copy)]
pub struct CapabilityRequest {
    pub capability: u32,
}

impl CapabilityRequest {
    pub const MASK: u32 = 0;

    pub const INTERFACE: u32 = 0;

    pub const FUNCTION: u32 = 0x100;
}

impl MessageBody for CapabilityRequest {
    ghost reading = { capability_request_of };

    ghost fits = { capability_request_allowed };

    ghost asks = { λ b. asks.Step };

    ghost body = { capability_request_body };

    #[tactic(auto, unfolding(crate::specs::CapabilityRequest::capability_request_of))]
    fn read(m: &[u8]) -> Result<CapabilityRequest, Fault> {
        field(m, 12, 4)?;
        ended(m, 16)?;
        Ok(CapabilityRequest {
            capability: u32_at(m, 12),
        })
    }

    fn allowed(self) -> bool {
        self.capability == 1
    }

    fn asked(self) -> Asked {
        Asked::Step
    }

    ghost says = { λ b. refl };
}
