// The TsUrb of a call of kind 10 or 11, from its field 2 on.
use crate::fields::{field, part, request};
use urb::bulk_or_interrupt_transfer::BulkOrInterruptTransfer;
use urb::control_transfer::ControlTransfer;
use urb::pipe_request::PipeRequest;
use writer::ts_urb::{
    IsochTransferFields, SelectConfigurationFields, SelectInterfaceFields, Structure, TsUrbFields,
};

// None where no structure has the number, or NoAck is no single bit.
pub(crate) fn of(h: &[u8]) -> Option<TsUrbFields> {
    if 6 < field(h, 2) || 1 < field(h, 5) {
        return None;
    }
    Some(TsUrbFields {
        function: field(h, 3),
        request: request(h, 4),
        noack: field(h, 5) == 1,
        structure: structure(h),
    })
}

fn structure(h: &[u8]) -> Structure {
    match field(h, 2) {
        0 => Structure::SelectConfiguration(SelectConfigurationFields {
            flag: field(h, 6),
            count: field(h, 7),
            interfaces: part(h, 8),
            descriptor: part(h, 10),
        }),
        1 => Structure::SelectInterface(SelectInterfaceFields {
            handle: field(h, 6),
            interface: part(h, 7),
        }),
        2 => Structure::GetCurrentFrameNumber,
        3 => Structure::PipeRequest(PipeRequest { pipe: field(h, 6) }),
        4 => Structure::BulkOrInterruptTransfer(BulkOrInterruptTransfer {
            pipe: field(h, 6),
            flags: field(h, 7),
        }),
        5 => Structure::ControlTransfer(ControlTransfer {
            pipe: field(h, 6),
            flags: field(h, 7),
            setup: part(h, 8),
        }),
        _ => Structure::IsochTransfer(IsochTransferFields {
            pipe: field(h, 6),
            flags: field(h, 7),
            start: field(h, 8),
            errors: field(h, 9),
            list: part(h, 10),
        }),
    }
}
