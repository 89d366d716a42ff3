// CANCEL_REQUEST (000 2.2.6.1), kind 13. Its interface is the device's.
//
//   12  RequestId  4
ghost use Rattle.std.specs.Prelude.{refl, true};
ghost use Rattle.wire.specs.Reading.{cancel_request_body};
ghost use Rattle.wire.specs.declared.message.Asked.TheVariants as asks;
ghost use Rattle.wire.specs.CancelRequest.{cancel_request_of};

use crate::body::MessageBody;
use crate::message::Asked;
use header::ids::RequestId;
use words::layout::{Fault, ended, field};

#[derive(Clone, Copy)]
pub struct CancelRequest {
    pub request: RequestId,
}

impl CancelRequest {
    pub const MASK: u32 = 1;

    pub const FUNCTION: u32 = 0x100;
}

impl MessageBody for CancelRequest {
    ghost reading = { cancel_request_of };

    ghost fits = { λ b. true };

    ghost asks = { λ b. asks.Cancel b.request };

    ghost body = { cancel_request_body };

    #[tactic(auto, unfolding(crate::specs::CancelRequest::cancel_request_of))]
    fn read(m: &[u8]) -> Result<CancelRequest, Fault> {
        field(m, 12, 4)?;
        ended(m, 16)?;
        Ok(CancelRequest {
            request: RequestId::read(m, 12),
        })
    }

    fn allowed(self) -> bool {
        true
    }

    fn asked(self) -> Asked {
        Asked::Cancel(self.request)
    }

    ghost says = { λ b. refl };
}
