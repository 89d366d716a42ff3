// TRANSFER_IN_REQUEST (000 2.2.6.7), kind 10. Its interface is the device's.
//
//   12  CbTsUrb           4
//   16  TsUrb             CbTsUrb
//    e  OutputBufferSize  4
ghost use Rattle.std.specs.Prelude.{refl};
ghost use Rattle.wire.specs.Message.{empty_part};
ghost use Rattle.wire.specs.Reading.{transfer_in_request_body};
ghost use Rattle.wire.specs.declared.message.Asked.TheVariants as asks;
ghost use Rattle.wire.specs.TransferInRequest.{transfer_in_request_of, transfer_in_request_allowed};

use crate::body::MessageBody;
use crate::message::{Asked, Request};
use crate::transfer;
use urb::ts_urb::TsUrb;
use urb_values::values;
use words::layout::{Fault, Part, ended, filled};

#[derive(Clone, Copy)]
pub struct TransferInRequest {
    pub urb: TsUrb,
    pub size: u32,
}

impl TransferInRequest {
    pub const MASK: u32 = 1;

    pub const FUNCTION: u32 = 0x105;
}

impl MessageBody for TransferInRequest {
    ghost reading = { transfer_in_request_of };

    ghost fits = { transfer_in_request_allowed };

    ghost asks = { λ b. asks.TransferIn (record { request = b.urb.request; size = b.size; noack = b.urb.noack; payload = empty_part }) };

    ghost body = { transfer_in_request_body };

    #[tactic(auto, unfolding(crate::specs::TransferInRequest::transfer_in_request_of))]
    fn read(m: &[u8]) -> Result<TransferInRequest, Fault> {
        let t = transfer::read(m)?;
        filled(t.last, t.end)?;
        ended(m, t.after)?;
        Ok(TransferInRequest {
            urb: t.urb,
            size: t.size,
        })
    }

    #[tactic(auto, unfolding(crate::specs::TransferInRequest::transfer_in_request_allowed))]
    fn allowed(self) -> bool {
        values::incoming(self.urb.noack, self.urb.urb, self.size)
    }

    fn asked(self) -> Asked {
        Asked::TransferIn(Request {
            request: self.urb.request,
            size: self.size,
            noack: self.urb.noack,
            payload: Part::EMPTY,
        })
    }

    ghost says = { λ b. refl };
}
