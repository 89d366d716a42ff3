// The fields of a message of a kind. Those of a message whose sizes add up are the reader's; of any other it is what stands at their places, and a byte past the end counts as 0.
ghost use Rattle.std.specs.Prelude.{◌≡◌};
ghost use Rattle.fields.specs.Message.{callback_in, channel_created_in, fields_in, io_completion_in, io_control_in};

use crate::{add_device, transfer, urb_completion};
use answers::kind::Kind;
use header::ids::{InterfaceId, RequestId};
use wire::cancel_request::CancelRequest;
use wire::capability_request::CapabilityRequest;
use wire::capability_response::CapabilityResponse;
use wire::channel_created::ChannelCreated;
use wire::io_control::IoControl;
use wire::retract_device::RetractDevice;
use words::layout::Part;
use words::numbers::u32_at;
use writer::io_control_completion::IoControlCompletionFields;
use writer::message::Fields;
use writer::register_request_callback::RegisterRequestCallbackFields;

fn channel_created(m: &[u8]) -> ChannelCreated
    ensures { result ≡ channel_created_in m.now }
{
    ChannelCreated {
        major: u32_at(m, 12),
        minor: u32_at(m, 16),
        capabilities: u32_at(m, 20),
    }
}

fn callback(m: &[u8]) -> RegisterRequestCallbackFields
    ensures { result ≡ callback_in m.now }
{
    let count = u32_at(m, 12);
    RegisterRequestCallbackFields {
        count,
        completion: if count == 0 {
            None
        } else {
            Some(u32_at(m, 16))
        },
    }
}

fn io_control(m: &[u8]) -> IoControl
    ensures { result ≡ io_control_in m.now }
{
    let size = u32_at(m, 16) as usize;
    let e = 20 + size;
    IoControl {
        code: u32_at(m, 12),
        input: Part { start: 20, size },
        size: u32_at(m, e),
        request: RequestId::read(m, e + 4),
    }
}

fn io_completion(m: &[u8]) -> IoControlCompletionFields
    ensures { result ≡ io_completion_in m.now }
{
    IoControlCompletionFields {
        request: RequestId::read(m, 12),
        result: u32_at(m, 16),
        information: u32_at(m, 20),
        output: Part {
            start: 28,
            size: u32_at(m, 24) as usize,
        },
    }
}

#[tactic(auto, unfolding(crate::specs::Message::fields_in))]
pub fn read(kind: Kind, m: &[u8]) -> Fields
    ensures { result ≡ fields_in kind m.now }
{
    let i = InterfaceId::read(m, 0).number();
    match kind {
        Kind::CapabilityRequest => Fields::CapabilityRequest(CapabilityRequest {
            capability: u32_at(m, 12),
        }),
        Kind::CapabilityResponse => Fields::CapabilityResponse(CapabilityResponse {
            capability: u32_at(m, 8),
            result: u32_at(m, 12),
        }),
        Kind::ChannelCreatedByServer => Fields::ChannelCreatedByServer(channel_created(m)),
        Kind::ChannelCreatedByClient => Fields::ChannelCreatedByClient(channel_created(m)),
        Kind::AddVirtualChannel => Fields::AddVirtualChannel,
        Kind::AddDevice => Fields::AddDevice(add_device::read(m)),
        Kind::CancelRequest => Fields::CancelRequest(
            i,
            CancelRequest {
                request: RequestId::read(m, 12),
            },
        ),
        Kind::RegisterRequestCallback => Fields::RegisterRequestCallback(i, callback(m)),
        Kind::IoControl => Fields::IoControl(i, io_control(m)),
        Kind::InternalIoControl => Fields::InternalIoControl(i, io_control(m)),
        Kind::TransferInRequest => Fields::TransferInRequest(i, transfer::read_in(m)),
        Kind::TransferOutRequest => Fields::TransferOutRequest(i, transfer::read_out(m)),
        Kind::RetractDevice => Fields::RetractDevice(
            i,
            RetractDevice {
                reason: u32_at(m, 12),
            },
        ),
        Kind::IoControlCompletion => Fields::IoControlCompletion(i, io_completion(m)),
        Kind::UrbCompletion => Fields::UrbCompletion(i, urb_completion::read(m)),
        Kind::UrbCompletionNoData => {
            Fields::UrbCompletionNoData(i, urb_completion::read_no_data(m))
        }
    }
}
