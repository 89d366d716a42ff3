// What a message asks of a channel: all that the table needs of a body, or why the message is refused with 7 or 8.
ghost use Rattle.std.specs.Prelude.{◌≡◌};
ghost use Rattle.wire.specs.Message.{asked_of};
ghost use Rattle.wire.specs.declared.message.Unfit.TheVariants.{Sizes};

use crate::add_device::AddDevice;
use crate::add_virtual_channel::AddVirtualChannel;
use crate::body::ask_of;
use crate::cancel_request::CancelRequest;
use crate::capability_request::CapabilityRequest;
use crate::capability_response::CapabilityResponse;
use crate::channel_created::ChannelCreated;
use crate::io_control::IoControl;
use crate::io_control_completion::IoControlCompletion;
use crate::register_request_callback::RegisterRequestCallback;
use crate::retract_device::RetractDevice;
use crate::transfer_in_request::TransferInRequest;
use crate::transfer_out_request::TransferOutRequest;
use crate::urb_completion::UrbCompletion;
use crate::urb_completion_no_data::UrbCompletionNoData;
use answers::kind::Kind;
use header::ids::{InterfaceId, RequestId};
use words::layout::{Fault, Part};

// A request: its id, its OutputBufferSize, whether it comes with NoAck, and where its input or output bytes lie.
#[derive(Clone, Copy)]
pub struct Request {
    pub request: RequestId,
    pub size: u32,
    pub noack: bool,
    pub payload: Part,
}

// A completion of an IO request.
#[derive(Clone, Copy)]
pub struct IoCompleted {
    pub request: RequestId,
    pub result: u32,
    pub information: u32,
    pub size: u32,
    pub payload: Part,
}

// A completion of a transfer.
#[derive(Clone, Copy)]
pub struct UrbCompleted {
    pub request: RequestId,
    pub size: u32,
    pub payload: Part,
}

// Why a message is refused with 7 or 8.
#[derive(Clone, Copy)]
pub enum Unfit {
    // sizes do not add up: answer 7
    Sizes(Fault),
    // a field outside the values that 01 states: answer 8
    Value,
}

impl From<Fault> for Unfit {
    ghost from_gives = { λ fault u. u ≡ Sizes fault };

    fn from(fault: Fault) -> Unfit {
        Unfit::Sizes(fault)
    }
}

#[derive(Clone, Copy)]
pub enum Asked {
    // kinds 1 to 5: the next phase, and nothing else
    Step,
    // kind 6: the device's interface and its NoAck milliseconds
    Device(InterfaceId, u32),
    // kind 7
    Callback(Option<InterfaceId>),
    // kinds 8 and 9, 10, 11
    IoControl(Request),
    TransferIn(Request),
    TransferOut(Request),
    // kind 13
    Cancel(RequestId),
    // kind 14
    Retract,
    // kinds 15, 16, 17
    IoCompletion(IoCompleted),
    UrbCompletion(UrbCompleted),
    UrbCompletionNoData(UrbCompleted),
}

// What a message of a kind asks: every size is held before any value.
#[tactic(auto, unfolding(crate::specs::Message::asked_of, crate::specs::Reading::reading_of))]
pub fn ask(kind: Kind, m: &[u8]) -> Result<Asked, Unfit>
    ensures { result ≡ asked_of kind m.now }
{
    match kind {
        Kind::CapabilityRequest => ask_of::<CapabilityRequest>(m),
        Kind::CapabilityResponse => ask_of::<CapabilityResponse>(m),
        Kind::ChannelCreatedByServer => ask_of::<ChannelCreated>(m),
        Kind::ChannelCreatedByClient => ask_of::<ChannelCreated>(m),
        Kind::AddVirtualChannel => ask_of::<AddVirtualChannel>(m),
        Kind::AddDevice => ask_of::<AddDevice>(m),
        Kind::CancelRequest => ask_of::<CancelRequest>(m),
        Kind::RegisterRequestCallback => ask_of::<RegisterRequestCallback>(m),
        Kind::IoControl => ask_of::<IoControl>(m),
        Kind::InternalIoControl => ask_of::<IoControl>(m),
        Kind::TransferInRequest => ask_of::<TransferInRequest>(m),
        Kind::TransferOutRequest => ask_of::<TransferOutRequest>(m),
        Kind::RetractDevice => ask_of::<RetractDevice>(m),
        Kind::IoControlCompletion => ask_of::<IoControlCompletion>(m),
        Kind::UrbCompletion => ask_of::<UrbCompletion>(m),
        Kind::UrbCompletionNoData => ask_of::<UrbCompletionNoData>(m),
    }
}
