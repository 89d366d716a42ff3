// The fields of a call, by kind: FORMAT.md names them.
ghost use Rattle.std.specs.Prelude.{◌<◌};

use crate::transfer;
use device::device_capabilities::DeviceCapabilities;
use header::ids::RequestId;
use wire::cancel_request::CancelRequest;
use wire::capability_request::CapabilityRequest;
use wire::capability_response::CapabilityResponse;
use wire::channel_created::ChannelCreated;
use wire::io_control::IoControl;
use wire::retract_device::RetractDevice;
use words::layout::Part;
use words::numbers::u32_at;
use writer::add_device::AddDeviceFields;
use writer::io_control_completion::IoControlCompletionFields;
use writer::message::Fields;
use writer::register_request_callback::RegisterRequestCallbackFields;
use writer::transfer::{TransferInFields, TransferOutFields};
use writer::urb_completion::{UrbCompletionFields, UrbCompletionNoDataFields, UrbResultFields};

// Field k of a call: they stand from its byte 20 on.
pub(crate) fn field(head: &[u8], k: usize) -> u32
    requires { k < 20 }
{
    u32_at(head, 20 + 4 * k)
}

pub(crate) fn request(head: &[u8], k: usize) -> RequestId
    requires { k < 20 }
{
    RequestId::read(head, 20 + 4 * k)
}

// The part whose start is field k, and its size the next.
pub(crate) fn part(head: &[u8], k: usize) -> Part
    requires { k < 19 }
{
    Part {
        start: field(head, k) as usize,
        size: field(head, k + 1) as usize,
    }
}

// What the writer can be called with, if the numbers say it.
pub(crate) fn of(kind: u32, h: &[u8]) -> Option<Fields> {
    let i = u32_at(h, 12);
    match kind {
        1 => Some(Fields::CapabilityRequest(CapabilityRequest {
            capability: field(h, 0),
        })),
        2 => Some(Fields::CapabilityResponse(CapabilityResponse {
            capability: field(h, 0),
            result: field(h, 1),
        })),
        3 => Some(Fields::ChannelCreatedByServer(channel_created(h))),
        4 => Some(Fields::ChannelCreatedByClient(channel_created(h))),
        5 => Some(Fields::AddVirtualChannel),
        6 => Some(Fields::AddDevice(add_device(h))),
        _ => to_device(kind, i, h),
    }
}

fn to_device(kind: u32, i: u32, h: &[u8]) -> Option<Fields> {
    match kind {
        7 => Some(Fields::RegisterRequestCallback(i, callback(h))),
        8 => Some(Fields::IoControl(i, io_control(h))),
        9 => Some(Fields::InternalIoControl(i, io_control(h))),
        10 => transfer_in(i, h),
        11 => transfer_out(i, h),
        13 => Some(Fields::CancelRequest(
            i,
            CancelRequest {
                request: request(h, 0),
            },
        )),
        14 => Some(Fields::RetractDevice(
            i,
            RetractDevice {
                reason: field(h, 0),
            },
        )),
        15 => Some(Fields::IoControlCompletion(i, io_completion(h))),
        16 => Some(Fields::UrbCompletion(i, urb_completion(h))),
        17 => Some(Fields::UrbCompletionNoData(i, no_data(h))),
        _ => None,
    }
}

fn channel_created(h: &[u8]) -> ChannelCreated {
    ChannelCreated {
        major: field(h, 0),
        minor: field(h, 1),
        capabilities: field(h, 2),
    }
}

fn add_device(h: &[u8]) -> AddDeviceFields {
    AddDeviceFields {
        count: field(h, 0),
        device: field(h, 1),
        instance: part(h, 2),
        hardware: part(h, 4),
        compatible: part(h, 6),
        container: part(h, 8),
        capabilities: DeviceCapabilities {
            size: field(h, 10),
            bus: field(h, 11),
            usbdi: field(h, 12),
            usb: field(h, 13),
            host: field(h, 14),
            speed: field(h, 15),
            jitter: field(h, 16),
        },
    }
}

fn callback(h: &[u8]) -> RegisterRequestCallbackFields {
    let given = field(h, 1) != 0;
    RegisterRequestCallbackFields {
        count: field(h, 0),
        completion: if given { Some(field(h, 2)) } else { None },
    }
}

fn io_control(h: &[u8]) -> IoControl {
    IoControl {
        code: field(h, 0),
        input: part(h, 1),
        size: field(h, 3),
        request: request(h, 4),
    }
}

fn transfer_in(i: u32, h: &[u8]) -> Option<Fields> {
    let transfer = TransferInFields {
        urb: transfer::of(h)?,
        size: field(h, 0),
    };
    Some(Fields::TransferInRequest(i, transfer))
}

fn transfer_out(i: u32, h: &[u8]) -> Option<Fields> {
    let transfer = TransferOutFields {
        urb: transfer::of(h)?,
        output: part(h, 0),
    };
    Some(Fields::TransferOutRequest(i, transfer))
}

fn io_completion(h: &[u8]) -> IoControlCompletionFields {
    IoControlCompletionFields {
        request: request(h, 0),
        result: field(h, 1),
        information: field(h, 2),
        output: part(h, 3),
    }
}

fn result(h: &[u8]) -> UrbResultFields {
    UrbResultFields {
        request: request(h, 0),
        status: field(h, 1),
        rest: part(h, 2),
        result: field(h, 4),
    }
}

fn urb_completion(h: &[u8]) -> UrbCompletionFields {
    UrbCompletionFields {
        urb: result(h),
        output: part(h, 5),
    }
}

fn no_data(h: &[u8]) -> UrbCompletionNoDataFields {
    UrbCompletionNoDataFields {
        urb: result(h),
        size: field(h, 5),
    }
}
