// Kinds 10 to 13, 16 and 17, with each structure of a TsUrb.
use crate::step::{client, server};
use crate::{bytes, ids};
use pieces::interface;
use table::table::Table;
use urb::bulk_or_interrupt_transfer::BulkOrInterruptTransfer;
use urb::control_transfer::ControlTransfer;
use urb::get_current_frame_number::GetCurrentFrameNumber;
use urb::isoch_transfer::IsochTransfer;
use urb::pipe_request::PipeRequest;
use urb::select_configuration::SelectConfiguration;
use urb::select_interface::SelectInterface;
use wire::cancel_request::CancelRequest;
use words::layout::Part;
use writer::message::Fields;
use writer::transfer::{TransferInFields, TransferOutFields};
use writer::ts_urb::{
    IsochTransferFields, SelectConfigurationFields, SelectInterfaceFields, Structure, TsUrbFields,
};
use writer::urb_completion::{UrbCompletionFields, UrbCompletionNoDataFields, UrbResultFields};

fn urb(function: u32, id: u8, noack: bool, structure: Structure) -> TsUrbFields {
    TsUrbFields {
        function,
        request: ids::request(id),
        noack,
        structure,
    }
}

fn transfer_in(urb: TsUrbFields, size: u32) -> Fields {
    Fields::TransferInRequest(ids::DEVICE, TransferInFields { urb, size })
}

fn transfer_out(urb: TsUrbFields, output: Part) -> Fields {
    Fields::TransferOutRequest(ids::DEVICE, TransferOutFields { urb, output })
}

fn result(id: u8, rest: Part) -> UrbResultFields {
    UrbResultFields {
        request: ids::request(id),
        status: 0,
        rest,
        result: 0,
    }
}

fn done(id: u8, rest: Part, size: u32) -> Fields {
    Fields::UrbCompletionNoData(
        ids::CALLBACK,
        UrbCompletionNoDataFields {
            urb: result(id, rest),
            size,
        },
    )
}

// Behind the descriptor. Were one refused, its message would be too, and the listing would show it.
fn two_interfaces(lent: &mut [u8; 92]) {
    let _ = interface::write(&bytes::FIRST_INTERFACE, &mut lent[32..68]);
    let _ = interface::write(&bytes::SECOND_INTERFACE, &mut lent[68..92]);
}

// A configuration of two interfaces, and then another setting of the second.
pub(crate) fn configured(t: Table) -> Table {
    let mut lent = bytes::CONFIGURATION;
    two_interfaces(&mut lent);
    let structure = Structure::SelectConfiguration(SelectConfigurationFields {
        flag: 1,
        count: 2,
        interfaces: Part {
            start: 32,
            size: 60,
        },
        descriptor: Part { start: 0, size: 32 },
    });
    let u = urb(SelectConfiguration::FUNCTION, 1, false, structure);
    let asked = server(t, transfer_in(u, 0), &lent);
    let chosen = client(asked, done(1, Part::EMPTY, 0), b"");
    set(chosen)
}

fn set(t: Table) -> Table {
    let mut lent = [0u8; 24];
    let _ = interface::write(&bytes::OTHER_SETTING, &mut lent);
    let structure = Structure::SelectInterface(SelectInterfaceFields {
        handle: 1,
        interface: Part { start: 0, size: 24 },
    });
    let u = urb(SelectInterface::FUNCTION, 2, false, structure);
    let asked = server(t, transfer_in(u, 0), &lent);
    client(asked, done(2, Part::EMPTY, 0), b"")
}

pub(crate) fn moved(t: Table) -> Table {
    let described = control(t);
    let commanded = bulk(described);
    isochronous(commanded)
}

// A descriptor comes in over the control pipe.
fn control(t: Table) -> Table {
    let structure = Structure::ControlTransfer(ControlTransfer {
        pipe: 0,
        flags: 3,
        setup: Part { start: 0, size: 8 },
    });
    let u = urb(ControlTransfer::FUNCTION, 5, false, structure);
    let asked = server(t, transfer_in(u, 18), &bytes::SETUP);
    let descriptor = UrbCompletionFields {
        urb: result(5, Part::EMPTY),
        output: Part { start: 8, size: 18 },
    };
    client(
        asked,
        Fields::UrbCompletion(ids::CALLBACK, descriptor),
        &bytes::SETUP,
    )
}

// A command goes out over a bulk pipe.
fn bulk(t: Table) -> Table {
    let structure = Structure::BulkOrInterruptTransfer(BulkOrInterruptTransfer {
        pipe: 0x12,
        flags: 2,
    });
    let u = urb(BulkOrInterruptTransfer::FUNCTION, 6, false, structure);
    let command = transfer_out(u, Part { start: 0, size: 31 });
    let asked = server(t, command, &bytes::COMMAND);
    client(asked, done(6, Part::EMPTY, 31), b"")
}

// Packets go out with NoAck: nothing is to come back.
fn isochronous(t: Table) -> Table {
    let structure = Structure::IsochTransfer(IsochTransferFields {
        pipe: 0x13,
        flags: 0,
        start: 100,
        errors: 0,
        list: Part { start: 0, size: 24 },
    });
    let u = urb(IsochTransfer::FUNCTION, 7, true, structure);
    let packets = transfer_out(
        u,
        Part {
            start: 24,
            size: 24,
        },
    );
    server(t, packets, &bytes::PACKETS)
}

// A frame number, which is behind the result's header; a read, which is cancelled, and whose completion was on its way (02 R-2); and a pipe that is aborted, which is never answered.
pub(crate) fn stopped(t: Table) -> Table {
    let frame = urb(
        GetCurrentFrameNumber::FUNCTION,
        8,
        false,
        Structure::GetCurrentFrameNumber,
    );
    let asked = server(t, transfer_in(frame, 0), b"");
    let counted = client(
        asked,
        done(8, Part { start: 0, size: 4 }, 0),
        &bytes::NUMBER,
    );
    let reading = server(counted, transfer_in(read(9), 512), b"");
    let cancel = CancelRequest {
        request: ids::request(9),
    };
    let cancelled = server(reading, Fields::CancelRequest(ids::DEVICE, cancel), b"");
    let late = client(cancelled, done(9, Part::EMPTY, 0), b"");
    server(late, transfer_in(abort(10), 0), b"")
}

fn read(id: u8) -> TsUrbFields {
    let structure = Structure::BulkOrInterruptTransfer(BulkOrInterruptTransfer {
        pipe: 0x11,
        flags: 3,
    });
    urb(BulkOrInterruptTransfer::FUNCTION, id, false, structure)
}

fn abort(id: u8) -> TsUrbFields {
    let structure = Structure::PipeRequest(PipeRequest { pipe: 0x11 });
    urb(PipeRequest::ABORT_PIPE, id, false, structure)
}
