// TRANSFER_OUT_REQUEST (000 2.2.6.8), kind 11, and 12 where it is accepted with NoAck. Its interface is the device's.
//
//   12  CbTsUrb           4
//   16  TsUrb             CbTsUrb
//    e  OutputBufferSize  4
//  e+4  OutputBuffer      OutputBufferSize
ghost use Rattle.std.specs.Prelude.{◌≡◌, refl};
ghost use Rattle.wire.specs.Reading.{transfer_out_request_body};
ghost use Rattle.wire.specs.declared.message.Asked.TheVariants as asks;
ghost use Rattle.wire.specs.TransferOutRequest.{transfer_out_request_of, outgoing_of, transfer_out_request_allowed};

use crate::body::MessageBody;
use crate::message::{Asked, Request};
use crate::transfer;
use crate::transfer::Transfer;
use urb::ts_urb::TsUrb;
use urb_values::values;
use words::layout::{Fault, Part, ended, field, filled};

#[derive(Clone, Copy)]
pub struct TransferOutRequest {
    pub urb: TsUrb,
    pub size: u32,
    pub output: Part,
}

impl TransferOutRequest {
    pub const MASK: u32 = 1;

    pub const FUNCTION: u32 = 0x106;
}

impl MessageBody for TransferOutRequest {
    ghost reading = { transfer_out_request_of };

    ghost fits = { transfer_out_request_allowed };

    ghost asks = { λ b. asks.TransferOut (record { request = b.urb.request; size = b.size; noack = b.urb.noack; payload = b.output }) };

    ghost body = { transfer_out_request_body };

    #[tactic(auto, unfolding(crate::specs::TransferOutRequest::transfer_out_request_of))]
    fn read(m: &[u8]) -> Result<TransferOutRequest, Fault> {
        outgoing(m, transfer::read(m)?)
    }

    #[tactic(auto, unfolding(crate::specs::TransferOutRequest::transfer_out_request_allowed))]
    fn allowed(self) -> bool {
        values::outgoing(self.urb.noack, self.urb.urb)
    }

    fn asked(self) -> Asked {
        Asked::TransferOut(Request {
            request: self.urb.request,
            size: self.size,
            noack: self.urb.noack,
            payload: self.output,
        })
    }

    ghost says = { λ b. refl };
}

#[tactic(auto, unfolding(crate::specs::TransferOutRequest::outgoing_of))]
fn outgoing(m: &[u8], t: Transfer) -> Result<TransferOutRequest, Fault>
    ensures { result ≡ outgoing_of m.now t }
{
    let size = t.size as usize;
    field(m, t.after, size)?;
    filled(t.last, t.end)?;
    ended(m, t.after + size)?;
    Ok(TransferOutRequest {
        urb: t.urb,
        size: t.size,
        output: Part {
            start: t.after,
            size,
        },
    })
}
