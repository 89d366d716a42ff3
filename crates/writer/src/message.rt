// A message of any kind from its fields, into a buffer that the caller lends.
ghost use Rattle.std.specs.Prelude.{◌≡◌, true, length};
ghost use Rattle.writer.specs.SharedMsgHeader.{padded};
ghost use Rattle.writer.specs.Message.{SmallFields, buffer_of, given_in, pieces_of, written_of};

use crate::add_device::AddDeviceFields;
use crate::io_control_completion::IoControlCompletionFields;
use crate::register_request_callback::RegisterRequestCallbackFields;
use crate::transfer::{TransferInFields, TransferOutFields};
use crate::urb_completion::{UrbCompletionFields, UrbCompletionNoDataFields};
use crate::{
    add_device, add_virtual_channel, cancel_request, capability_request, capability_response,
    channel_created, io_control, io_control_completion, register_request_callback, retract_device,
    transfer, urb_completion,
};
use header::ids::MessageId;
use pieces::piece;
use pieces::piece::{Piece, Unwritten};
use wire::cancel_request::CancelRequest;
use wire::capability_request::CapabilityRequest;
use wire::capability_response::CapabilityResponse;
use wire::channel_created::ChannelCreated;
use wire::internal_io_control::InternalIoControl;
use wire::io_control::IoControl;
use wire::retract_device::RetractDevice;

// The fields of a message as 000 names them, without those that follow from others; before them, for the kinds that go to a device or to a callback, the interface. Kind 12 is kind 11 with NoAck.
#[derive(Clone, Copy)]
pub enum Fields {
    CapabilityRequest(CapabilityRequest),
    CapabilityResponse(CapabilityResponse),
    ChannelCreatedByServer(ChannelCreated),
    ChannelCreatedByClient(ChannelCreated),
    AddVirtualChannel,
    AddDevice(AddDeviceFields),
    RegisterRequestCallback(u32, RegisterRequestCallbackFields),
    IoControl(u32, IoControl),
    InternalIoControl(u32, IoControl),
    TransferInRequest(u32, TransferInFields),
    TransferOutRequest(u32, TransferOutFields),
    CancelRequest(u32, CancelRequest),
    RetractDevice(u32, RetractDevice),
    IoControlCompletion(u32, IoControlCompletionFields),
    UrbCompletion(u32, UrbCompletionFields),
    UrbCompletionNoData(u32, UrbCompletionNoDataFields),
}

// Whether every field is within its values, and every part in the lent bytes.
#[tactic(auto, unfolding(crate::specs::Message::given_in))]
fn given(fields: Fields, lent: &[u8]) -> bool
    ensures { result ≡ given_in lent.now fields }
{
    match fields {
        Fields::CapabilityRequest(b) => capability_request::allowed(b),
        Fields::CapabilityResponse(b) => capability_response::allowed(b),
        Fields::ChannelCreatedByServer(b) => channel_created::allowed(b),
        Fields::ChannelCreatedByClient(b) => channel_created::allowed(b),
        Fields::AddVirtualChannel => true,
        Fields::AddDevice(b) => add_device::allowed(b, lent),
        Fields::RegisterRequestCallback(i, b) => register_request_callback::allowed(i, b),
        Fields::IoControl(i, b) => io_control::allowed(i, b, lent),
        Fields::InternalIoControl(i, b) => io_control::allowed(i, b, lent),
        Fields::TransferInRequest(i, b) => transfer::in_allowed(i, b, lent),
        Fields::TransferOutRequest(i, b) => transfer::out_allowed(i, b, lent),
        Fields::CancelRequest(i, _) => cancel_request::allowed(i),
        Fields::RetractDevice(i, b) => retract_device::allowed(i, b),
        Fields::IoControlCompletion(i, b) => io_control_completion::allowed(i, b, lent),
        Fields::UrbCompletion(i, b) => urb_completion::allowed(i, b, lent),
        Fields::UrbCompletionNoData(i, b) => urb_completion::result_allowed(i, b.urb, lent),
    }
}

// What it asks is a fact of fields that were given, of four structs: no type says it of all.
#[tactic(auto, unfolding(crate::specs::Message::pieces_of))]
fn pieces(id: MessageId, fields: Fields) -> [Piece; 20]
    requires { SmallFields fields }
    ensures { result ≡ padded (pieces_of id fields) }
{
    match fields {
        Fields::CapabilityRequest(b) => capability_request::pieces(id, b),
        Fields::CapabilityResponse(b) => capability_response::pieces(id, b),
        Fields::ChannelCreatedByServer(b) => channel_created::pieces(
            id,
            ChannelCreated::INTERFACE_BY_SERVER,
            b,
        ),
        Fields::ChannelCreatedByClient(b) => channel_created::pieces(
            id,
            ChannelCreated::INTERFACE_BY_CLIENT,
            b,
        ),
        Fields::AddVirtualChannel => add_virtual_channel::pieces(id),
        Fields::AddDevice(b) => add_device::pieces(id, b),
        Fields::RegisterRequestCallback(i, b) => register_request_callback::pieces(id, i, b),
        Fields::IoControl(i, b) => io_control::pieces(id, i, IoControl::FUNCTION, b),
        Fields::InternalIoControl(i, b) => io_control::pieces(
            id,
            i,
            InternalIoControl::FUNCTION,
            b,
        ),
        Fields::TransferInRequest(i, b) => transfer::in_pieces(id, i, b),
        Fields::TransferOutRequest(i, b) => transfer::out_pieces(id, i, b),
        Fields::CancelRequest(i, b) => cancel_request::pieces(id, i, b),
        Fields::RetractDevice(i, b) => retract_device::pieces(id, i, b),
        Fields::IoControlCompletion(i, b) => io_control_completion::pieces(id, i, b),
        Fields::UrbCompletion(i, b) => urb_completion::pieces(id, i, b),
        Fields::UrbCompletionNoData(i, b) => urb_completion::no_data_pieces(id, i, b),
    }
}

// Writes a message to a buffer's start, and says how long it is: 15 before 16, and where it is refused the buffer stays as it was lent.
#[tactic(auto, using(crate::proofs::Messages::given_small))]
pub fn write(id: MessageId, fields: Fields, lent: &[u8], buf: &mut [u8]) -> Result<usize, Unwritten>
    ensures { (result ≡ written_of id fields lent.now (length buf.old)) × (buf.new ≡ buffer_of id fields lent.now buf.old) }
{
    if !given(fields, lent) {
        return Err(Unwritten::Value);
    }
    piece::write(pieces(id, fields), lent, buf)
}
