// IO_CONTROL (000 2.2.6.3), kind 8. Its interface is the device's.
//
//   12  IoControlCode     4
//   16  InputBufferSize   4
//   20  InputBuffer       InputBufferSize
//    e  OutputBufferSize  4
//  e+4  RequestId         4
ghost use Rattle.std.specs.Prelude.{refl, true, false};
ghost use Rattle.wire.specs.Reading.{io_control_body};
ghost use Rattle.wire.specs.declared.message.Asked.TheVariants as asks;
ghost use Rattle.wire.specs.IoControl.{io_control_of};

use crate::body::MessageBody;
use crate::message::{Asked, Request};
use header::ids::RequestId;
use words::layout::{Fault, Part, ended, field};
use words::numbers::u32_at;

#[derive(Clone, Copy)]
pub struct IoControl {
    pub code: u32,
    pub input: Part,
    pub size: u32,
    pub request: RequestId,
}

impl IoControl {
    pub const MASK: u32 = 1;

    pub const FUNCTION: u32 = 0x102;
}

impl MessageBody for IoControl {
    ghost reading = { io_control_of };

    ghost fits = { λ b. true };

    ghost asks = { λ b. asks.IoControl (record { request = b.request; size = b.size; noack = false; payload = b.input }) };

    ghost body = { io_control_body };

    #[tactic(auto, unfolding(crate::specs::IoControl::io_control_of, crate::specs::IoControl::io_control_with))]
    fn read(m: &[u8]) -> Result<IoControl, Fault> {
        field(m, 12, 4)?;
        field(m, 16, 4)?;
        let size = u32_at(m, 16);
        let e = 20 + size as usize;
        field(m, 20, size as usize)?;
        field(m, e, 4)?;
        field(m, e + 4, 4)?;
        ended(m, e + 8)?;
        Ok(IoControl {
            code: u32_at(m, 12),
            input: Part {
                start: 20,
                size: size as usize,
            },
            size: u32_at(m, e),
            request: RequestId::read(m, e + 4),
        })
    }

    fn allowed(self) -> bool {
        true
    }

    fn asked(self) -> Asked {
        Asked::IoControl(Request {
            request: self.request,
            size: self.size,
            noack: false,
            payload: self.input,
        })
    }

    ghost says = { λ b. refl };
}
