// URB_COMPLETION_NO_DATA (000 2.2.7.3), kind 17. Its interface is the callback's.
//
//   12  what ts_urb_result.rt reads, and nothing behind its OutputBufferSize
ghost use Rattle.std.specs.Prelude.{refl, true};
ghost use Rattle.wire.specs.Message.{empty_part};
ghost use Rattle.wire.specs.Reading.{urb_completion_no_data_body};
ghost use Rattle.wire.specs.declared.message.Asked.TheVariants as asks;
ghost use Rattle.wire.specs.UrbCompletionNoData.{urb_completion_no_data_of};

use crate::body::MessageBody;
use crate::message::{Asked, UrbCompleted};
use crate::ts_urb_result;
use crate::ts_urb_result::TsUrbResult;
use header::ids::RequestId;
use words::layout::{Fault, Part, ended};

#[derive(Clone, Copy)]
pub struct UrbCompletionNoData {
    pub request: RequestId,
    pub urb: TsUrbResult,
    pub result: u32,
    pub size: u32,
}

impl UrbCompletionNoData {
    pub const MASK: u32 = 1;

    pub const FUNCTION: u32 = 0x102;
}

impl MessageBody for UrbCompletionNoData {
    ghost reading = { urb_completion_no_data_of };

    ghost fits = { λ b. true };

    ghost asks = { λ b. asks.UrbCompletionNoData (record { request = b.request; size = b.size; payload = empty_part }) };

    ghost body = { urb_completion_no_data_body };

    #[tactic(auto, unfolding(crate::specs::UrbCompletionNoData::urb_completion_no_data_of))]
    fn read(m: &[u8]) -> Result<UrbCompletionNoData, Fault> {
        let c = ts_urb_result::read(m)?;
        ended(m, c.after)?;
        Ok(UrbCompletionNoData {
            request: c.request,
            urb: c.urb,
            result: c.result,
            size: c.size,
        })
    }

    fn allowed(self) -> bool {
        true
    }

    fn asked(self) -> Asked {
        Asked::UrbCompletionNoData(UrbCompleted {
            request: self.request,
            size: self.size,
            payload: Part::EMPTY,
        })
    }

    ghost says = { λ b. refl };
}
