// A device comes and goes.
use crate::step::{client, server};
use crate::{bytes, ids};
use device::device_capabilities::DeviceCapabilities;
use table::table::Table;
use wire::capability_request::CapabilityRequest;
use wire::capability_response::CapabilityResponse;
use wire::channel_created::ChannelCreated;
use wire::retract_device::RetractDevice;
use words::layout::Part;
use writer::add_device::AddDeviceFields;
use writer::message::Fields;
use writer::register_request_callback::RegisterRequestCallbackFields;

// Kinds 1 to 4.
pub(crate) fn greetings(t: Table) -> Table {
    let created = ChannelCreated {
        major: 1,
        minor: 0,
        capabilities: 0,
    };
    let request = Fields::CapabilityRequest(CapabilityRequest { capability: 1 });
    let response = Fields::CapabilityResponse(CapabilityResponse {
        capability: 1,
        result: 0,
    });
    let by_server = Fields::ChannelCreatedByServer(created);
    let by_client = Fields::ChannelCreatedByClient(created);
    let asked = server(t, request, b"");
    let answered = client(asked, response, b"");
    let half = server(answered, by_server, b"");
    client(half, by_client, b"")
}

// Kinds 5 to 7: a device that may leave packets without an answer for 20 milliseconds, and its callback.
pub(crate) fn added(t: Table) -> Table {
    let device = AddDeviceFields {
        count: 1,
        device: ids::DEVICE,
        instance: Part { start: 0, size: 10 },
        hardware: Part {
            start: 10,
            size: 10,
        },
        compatible: Part { start: 20, size: 8 },
        container: Part { start: 28, size: 8 },
        capabilities: DeviceCapabilities {
            size: 28,
            bus: 2,
            usbdi: 0x600,
            usb: 0x200,
            host: 0,
            speed: 1,
            jitter: 20,
        },
    };
    let callback = RegisterRequestCallbackFields {
        count: 1,
        completion: Some(ids::CALLBACK),
    };
    let announced = client(t, Fields::AddVirtualChannel, b"");
    let here = client(announced, Fields::AddDevice(device), &bytes::TEXTS);
    server(
        here,
        Fields::RegisterRequestCallback(ids::DEVICE, callback),
        b"",
    )
}

// Kind 14.
pub(crate) fn retracted(t: Table) -> Table {
    let retract = RetractDevice { reason: 1 };
    server(t, Fields::RetractDevice(ids::DEVICE, retract), b"")
}
