// TRANSFER_IN_REQUEST (000 2.2.6.7), kind 10, and TRANSFER_OUT_REQUEST (000 2.2.6.8), kind 11; wire::transfer has what they begin with.
ghost use Rattle.std.specs.Prelude.{◌≡◌};
ghost use Rattle.fields.specs.Transfer.{structure_in, transfer_in, transfer_out, urb_by, urb_in};

use header::ids::RequestId;
use urb::ts_urb;
use urb::ts_urb::{TsUrb, Urb};
use words::layout::{Fault, Part};
use words::numbers::u32_at;
use writer::transfer::{TransferInFields, TransferOutFields};
use writer::ts_urb::{
    IsochTransferFields, SelectConfigurationFields, SelectInterfaceFields, Structure, TsUrbFields,
};

// The structure without what follows from others. Of a function that is not known there is none, and any other stands for it: no writer takes it under that function.
fn structure(urb: Urb) -> Structure
    ensures { result ≡ structure_in urb }
{
    match urb {
        Urb::SelectConfiguration(b) => Structure::SelectConfiguration(SelectConfigurationFields {
            flag: b.flag,
            count: b.count,
            interfaces: b.interfaces,
            descriptor: b.descriptor.part,
        }),
        Urb::SelectInterface(b) => Structure::SelectInterface(SelectInterfaceFields {
            handle: b.handle,
            interface: b.interface,
        }),
        Urb::GetCurrentFrameNumber => Structure::GetCurrentFrameNumber,
        Urb::PipeRequest(b) => Structure::PipeRequest(b),
        Urb::BulkOrInterruptTransfer(b) => Structure::BulkOrInterruptTransfer(b),
        Urb::ControlTransfer(b) => Structure::ControlTransfer(b),
        Urb::IsochTransfer(b) => Structure::IsochTransfer(IsochTransferFields {
            pipe: b.pipe,
            flags: b.flags,
            start: b.start,
            errors: b.errors,
            list: b.list,
        }),
        Urb::Unknown => Structure::GetCurrentFrameNumber,
    }
}

// A TsUrb of which the sizes do not add up has a function that no TsUrb has.
fn from_read(m: &[u8], read: Result<(TsUrb, usize), Fault>) -> TsUrbFields
    ensures { result ≡ urb_by m.now read }
{
    match read {
        Ok((t, _)) => TsUrbFields {
            function: t.function,
            request: t.request,
            noack: t.noack,
            structure: structure(t.urb),
        },
        Err(_) => TsUrbFields {
            function: 0x1_0000,
            request: RequestId::read_urb(m, 20),
            noack: false,
            structure: Structure::GetCurrentFrameNumber,
        },
    }
}

fn urb_in(m: &[u8], n: u32) -> TsUrbFields
    ensures { result ≡ urb_in m.now n }
{
    let end = 16 + n as usize;
    from_read(m, ts_urb::read(m.get(..end).unwrap_or(m)))
}

#[tactic(auto, unfolding(crate::specs::Transfer::transfer_in))]
pub(crate) fn read_in(m: &[u8]) -> TransferInFields
    ensures { result ≡ transfer_in m.now }
{
    let n = u32_at(m, 12);
    TransferInFields {
        urb: urb_in(m, n),
        size: u32_at(m, 16 + n as usize),
    }
}

#[tactic(auto, unfolding(crate::specs::Transfer::transfer_out))]
pub(crate) fn read_out(m: &[u8]) -> TransferOutFields
    ensures { result ≡ transfer_out m.now }
{
    let n = u32_at(m, 12);
    let end = 16 + n as usize;
    TransferOutFields {
        urb: urb_in(m, n),
        output: Part {
            start: end + 4,
            size: u32_at(m, end) as usize,
        },
    }
}
