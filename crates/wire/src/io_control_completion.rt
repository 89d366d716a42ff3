// IOCONTROL_COMPLETION (000 2.2.7.1), kind 15. Its interface is the callback's.
//
//   12  RequestId         4
//   16  HResult           4
//   20  Information       4
//   24  OutputBufferSize  4
//   28  OutputBuffer      OutputBufferSize
ghost use Rattle.std.specs.Prelude.{refl, true};
ghost use Rattle.wire.specs.Reading.{io_control_completion_body};
ghost use Rattle.wire.specs.declared.message.Asked.TheVariants as asks;
ghost use Rattle.wire.specs.IoControlCompletion.{io_control_completion_of};

use crate::body::MessageBody;
use crate::message::{Asked, IoCompleted};
use header::ids::RequestId;
use words::layout::{Fault, Part, ended, field};
use words::numbers::u32_at;

#[derive(Clone, Copy)]
pub struct IoControlCompletion {
    pub request: RequestId,
    pub result: u32,
    pub information: u32,
    pub size: u32,
    pub output: Part,
}

impl IoControlCompletion {
    pub const MASK: u32 = 1;

    pub const FUNCTION: u32 = 0x100;
}

impl MessageBody for IoControlCompletion {
    ghost reading = { io_control_completion_of };

    ghost fits = { λ b. true };

    ghost asks = { λ b. asks.IoCompletion (record { request = b.request; result = b.result; information = b.information; size = b.size; payload = b.output }) };

    ghost body = { io_control_completion_body };

    #[tactic(auto, unfolding(crate::specs::IoControlCompletion::io_control_completion_of, crate::specs::IoControlCompletion::io_control_completion_with))]
    fn read(m: &[u8]) -> Result<IoControlCompletion, Fault> {
        field(m, 12, 4)?;
        field(m, 16, 4)?;
        field(m, 20, 4)?;
        field(m, 24, 4)?;
        let size = u32_at(m, 24);
        let e = 28 + size as usize;
        field(m, 28, size as usize)?;
        ended(m, e)?;
        Ok(IoControlCompletion {
            request: RequestId::read(m, 12),
            result: u32_at(m, 16),
            information: u32_at(m, 20),
            size,
            output: Part {
                start: 28,
                size: size as usize,
            },
        })
    }

    fn allowed(self) -> bool {
        true
    }

    fn asked(self) -> Asked {
        Asked::IoCompletion(IoCompleted {
            request: self.request,
            result: self.result,
            information: self.information,
            size: self.size,
            payload: self.output,
        })
    }

    ghost says = { λ b. refl };
}
