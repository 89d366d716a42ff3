// REGISTER_REQUEST_CALLBACK (000 2.2.6.2), kind 7. Its interface is the device's.
//
//   12  NumRequestCompletion  4
//   16  RequestCompletion     4  only where the count is not 0; its low 30 bits are an interface, 4 or above
ghost use Rattle.std.specs.Prelude.{refl};
ghost use Rattle.wire.specs.Reading.{register_request_callback_body};
ghost use Rattle.wire.specs.declared.message.Asked.TheVariants as asks;
ghost use Rattle.wire.specs.RegisterRequestCallback.{register_request_callback_of, register_request_callback_allowed};

use crate::body::MessageBody;
use crate::message::Asked;
use header::ids::InterfaceId;
use words::layout::{Fault, ended, field};
use words::numbers::u32_at;

#[derive(Clone, Copy)]
pub struct RegisterRequestCallback {
    pub count: u32,
    pub callback: Option<InterfaceId>,
    // the top 2 bits of RequestCompletion, which are no part of the interface; 0 where it is not there
    pub top: u32,
}

impl RegisterRequestCallback {
    pub const MASK: u32 = 1;

    pub const FUNCTION: u32 = 0x101;
}

impl MessageBody for RegisterRequestCallback {
    ghost reading = { register_request_callback_of };

    ghost fits = { register_request_callback_allowed };

    ghost asks = { λ b. asks.Callback b.callback };

    ghost body = { register_request_callback_body };

    #[tactic(auto, unfolding(crate::specs::RegisterRequestCallback::register_request_callback_of))]
    fn read(m: &[u8]) -> Result<RegisterRequestCallback, Fault> {
        field(m, 12, 4)?;
        let count = u32_at(m, 12);
        if count == 0 {
            ended(m, 16)?;
            return Ok(RegisterRequestCallback {
                count,
                callback: None,
                top: 0,
            });
        }
        field(m, 16, 4)?;
        ended(m, 20)?;
        Ok(RegisterRequestCallback {
            count,
            callback: Some(InterfaceId::read(m, 16)),
            top: InterfaceId::mask(m, 16),
        })
    }

    fn allowed(self) -> bool {
        match self.callback {
            None => true,
            Some(id) => id.assignable(),
        }
    }

    fn asked(self) -> Asked {
        Asked::Callback(self.callback)
    }

    ghost says = { λ b. refl };
}
