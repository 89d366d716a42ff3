// RIM_EXCHANGE_CAPABILITY_RESPONSE (000 2.2.3.2), kind 2. It has no FunctionId, so its body starts at 8.
//
//    8  CapabilityValue  4  1
//   12  Result           4  top bit clear
ghost use Rattle.std.specs.Prelude.{refl};
ghost use Rattle.wire.specs.Reading.{capability_response_body};
ghost use Rattle.wire.specs.declared.message.Asked.TheVariants as asks;
ghost use Rattle.wire.specs.CapabilityResponse.{capability_response_of, capability_response_allowed};

use crate::body::MessageBody;
use crate::message::Asked;
use words::hresult::is_success;
use words::layout::{Fault, ended, field};
use words::numbers::u32_at;

#[derive(Clone, Copy)]
pub struct CapabilityResponse {
    pub capability: u32,
    pub result: u32,
}

impl CapabilityResponse {
    pub const MASK: u32 = 0;

    pub const INTERFACE: u32 = 0;
}

impl MessageBody for CapabilityResponse {
    ghost reading = { capability_response_of };

    ghost fits = { capability_response_allowed };

    ghost asks = { λ b. asks.Step };

    ghost body = { capability_response_body };

    #[tactic(auto, unfolding(crate::specs::CapabilityResponse::capability_response_of))]
    fn read(m: &[u8]) -> Result<CapabilityResponse, Fault> {
        field(m, 8, 4)?;
        field(m, 12, 4)?;
        ended(m, 16)?;
        Ok(CapabilityResponse {
            capability: u32_at(m, 8),
            result: u32_at(m, 12),
        })
    }

    fn allowed(self) -> bool {
        self.capability == 1 && is_success(self.result)
    }

    fn asked(self) -> Asked {
        Asked::Step
    }

    ghost says = { λ b. refl };
}
