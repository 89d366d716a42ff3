// A TS_URB (000 2.2.9), the TsUrb field of the two transfer requests. It starts at byte 16 of the message.
//
//   16  Size          2  CbTsUrb
//   18  URB Function  2
//   20  RequestId     31 bits
//       NoAck          1 bit, the top one of the same word
//   24  by function
ghost use Rattle.std.specs.Prelude.{◌≡◌, eqb, length, Ok};
ghost use Rattle.words.specs.Layout.{agrees, left};
ghost use Rattle.urb.specs.TsUrb.{ts_urb_of, structure_of, one_size_of};

use crate::bulk_or_interrupt_transfer::BulkOrInterruptTransfer;
use crate::control_transfer::ControlTransfer;
use crate::get_current_frame_number::GetCurrentFrameNumber;
use crate::isoch_transfer::IsochTransfer;
use crate::pipe_request::PipeRequest;
use crate::select_configuration::SelectConfiguration;
use crate::select_interface::SelectInterface;
use crate::{
    bulk_or_interrupt_transfer, control_transfer, get_current_frame_number, isoch_transfer,
    pipe_request, select_configuration, select_interface,
};
use header::ids::RequestId;
use words::layout::{Fault, agrees};
use words::numbers::{rest, u16_at};

#[derive(Clone, Copy)]
pub enum Urb {
    SelectConfiguration(SelectConfiguration),
    SelectInterface(SelectInterface),
    GetCurrentFrameNumber,
    PipeRequest(PipeRequest),
    BulkOrInterruptTransfer(BulkOrInterruptTransfer),
    ControlTransfer(ControlTransfer),
    IsochTransfer(IsochTransfer),
    Unknown,
}

#[derive(Clone, Copy)]
pub struct TsUrb {
    pub size: u32,
    pub function: u32,
    pub request: RequestId,
    pub noack: bool,
    pub urb: Urb,
}

// The TsUrb of a message that is cut where its TsUrb ends. That CbTsUrb is at least 8 is the transfer's question.
#[tactic(auto, unfolding(crate::specs::TsUrb::ts_urb_of))]
pub fn read(u: &[u8]) -> Result<(TsUrb, usize), Fault>
    ensures { result ≡ ts_urb_of u.now }
{
    let size = u16_at(u, 16);
    agrees(size as usize == rest(u, 16), 16)?;
    let function = u16_at(u, 18);
    let (urb, end) = structure(u, function)?;
    let ts_urb = TsUrb {
        size,
        function,
        request: RequestId::read_urb(u, 20),
        noack: RequestId::no_ack(u, 20),
        urb,
    };
    Ok((ts_urb, end))
}

// What is behind the header, and where its last field ends.
#[tactic(auto, unfolding(crate::specs::TsUrb::structure_of))]
fn structure(u: &[u8], function: u32) -> Result<(Urb, usize), Fault>
    ensures { result ≡ structure_of u.now function }
{
    match function {
        SelectConfiguration::FUNCTION => select_configuration::read(u),
        SelectInterface::FUNCTION => select_interface::read(u),
        IsochTransfer::FUNCTION => isoch_transfer::read(u),
        _ => one_size(u, function),
    }
}

// The functions whose TsUrb has one size: each structure tests its own.
#[tactic(auto, unfolding(crate::specs::TsUrb::one_size_of))]
fn one_size(u: &[u8], function: u32) -> Result<(Urb, usize), Fault>
    ensures { result ≡ one_size_of u.now function }
{
    match function {
        GetCurrentFrameNumber::FUNCTION => get_current_frame_number::read(u),
        PipeRequest::ABORT_PIPE | PipeRequest::SYNC_RESET_PIPE_AND_CLEAR_STALL =>
            pipe_request::read(u),
        BulkOrInterruptTransfer::FUNCTION => bulk_or_interrupt_transfer::read(u),
        ControlTransfer::FUNCTION => control_transfer::read(u),
        _ => Ok((Urb::Unknown, u.len())),
    }
}

// A structure of one size, where the TsUrb has that size.
pub(crate) fn sized(u: &[u8], size: usize, urb: Urb) -> Result<(Urb, usize), Fault>
    ensures { result ≡ agrees (eqb (left u.now 16) size) 16 (Ok (urb, length u.now)) }
{
    agrees(rest(u, 16) == size, 16)?;
    Ok((urb, u.len()))
}
