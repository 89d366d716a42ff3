// URB_COMPLETION (000 2.2.7.2), kind 16. Its interface is the callback's.
//
//   12  what ts_urb_result.rt reads
//  e+8  OutputBuffer  OutputBufferSize, at least 1
ghost use Rattle.std.specs.Prelude.{◌≡◌, refl};
ghost use Rattle.wire.specs.Reading.{urb_completion_body};
ghost use Rattle.wire.specs.declared.message.Asked.TheVariants as asks;
ghost use Rattle.wire.specs.UrbCompletion.{urb_completion_of, with_output_of, urb_completion_allowed};

use crate::body::MessageBody;
use crate::message::{Asked, UrbCompleted};
use crate::ts_urb_result;
use crate::ts_urb_result::{Completion, TsUrbResult};
use header::ids::RequestId;
use words::layout::{Fault, Part, ended, field};

#[derive(Clone, Copy)]
pub struct UrbCompletion {
    pub request: RequestId,
    pub urb: TsUrbResult,
    pub result: u32,
    pub size: u32,
    pub output: Part,
}

impl UrbCompletion {
    pub const MASK: u32 = 1;

    pub const FUNCTION: u32 = 0x101;
}

impl MessageBody for UrbCompletion {
    ghost reading = { urb_completion_of };

    ghost fits = { urb_completion_allowed };

    ghost asks = { λ b. asks.UrbCompletion (record { request = b.request; size = b.size; payload = b.output }) };

    ghost body = { urb_completion_body };

    #[tactic(auto, unfolding(crate::specs::UrbCompletion::urb_completion_of))]
    fn read(m: &[u8]) -> Result<UrbCompletion, Fault> {
        with_output(m, ts_urb_result::read(m)?)
    }

    fn allowed(self) -> bool {
        self.size != 0
    }

    fn asked(self) -> Asked {
        Asked::UrbCompletion(UrbCompleted {
            request: self.request,
            size: self.size,
            payload: self.output,
        })
    }

    ghost says = { λ b. refl };
}

#[tactic(auto, unfolding(crate::specs::UrbCompletion::with_output_of))]
fn with_output(m: &[u8], c: Completion) -> Result<UrbCompletion, Fault>
    ensures { result ≡ with_output_of m.now c }
{
    let size = c.size as usize;
    field(m, c.after, size)?;
    ended(m, c.after + size)?;
    Ok(UrbCompletion {
        request: c.request,
        urb: c.urb,
        result: c.result,
        size: c.size,
        output: Part {
            start: c.after,
            size,
        },
    })
}
