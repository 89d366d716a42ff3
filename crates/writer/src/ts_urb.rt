// A TS_URB (000 2.2.9) from its fields; urb::ts_urb and the files beside it have the layouts. Size, the packet count and, in an interface list, what stands as padding are not given.
ghost use Rattle.std.specs.Prelude.{◌≡◌, ◌≤◌};
ghost use Rattle.writer.specs.TsUrb.{Small, configuration_stated, descriptor_sized, interface_stated, isoch_stated, control_stated, listed_of, stated_of, structure_pieces, structure_size, suited};
ghost use Rattle.writer.specs.declared.ts_urb.Structure.TheVariants as structure;

use crate::part;
use crate::part::{Held, lent_part};
use header::ids::RequestId;
use pieces::piece::Piece;
use urb::bulk_or_interrupt_transfer::BulkOrInterruptTransfer;
use urb::control_transfer::ControlTransfer;
use urb::get_current_frame_number::GetCurrentFrameNumber;
use urb::interfaces;
use urb::isoch_transfer::IsochTransfer;
use urb::pipe_request::PipeRequest;
use urb::select_configuration::{Descriptor, SelectConfiguration};
use urb::select_interface::SelectInterface;
use urb::ts_urb::Urb;
use words::layout::Part;
use words::numbers::byte_at;

#[derive(Clone, Copy)]
pub struct SelectConfigurationFields {
    // ConfigurationDescriptorIsValid
    pub flag: u32,
    // NumInterfaces
    pub count: u32,
    // as many, one behind the other, each with its Length
    pub interfaces: Part,
    pub descriptor: Part,
}

#[derive(Clone, Copy)]
pub struct SelectInterfaceFields {
    // ConfigurationHandle
    pub handle: u32,
    pub interface: Part,
}

#[derive(Clone, Copy)]
pub struct IsochTransferFields {
    pub pipe: u32,
    pub flags: u32,
    pub start: u32,
    pub errors: u32,
    pub list: Part,
}

// The structures by their fields; those that a reader finds with nothing computed in them are the reader's.
#[derive(Clone, Copy)]
pub enum Structure {
    SelectConfiguration(SelectConfigurationFields),
    SelectInterface(SelectInterfaceFields),
    GetCurrentFrameNumber,
    PipeRequest(PipeRequest),
    BulkOrInterruptTransfer(BulkOrInterruptTransfer),
    ControlTransfer(ControlTransfer),
    IsochTransfer(IsochTransferFields),
}

#[derive(Clone, Copy)]
pub struct TsUrbFields {
    pub function: u32,
    pub request: RequestId,
    pub noack: bool,
    pub structure: Structure,
}

// The largest NumberOfPipes of an interface list, if it fills its part.
#[tactic(auto, unfolding(crate::specs::TsUrb::listed_of))]
fn list_pipes(list: Held, count: u32) -> Option<u32>
    ensures { result ≡ listed_of list.entry.lent.now list.entry.part count }
{
    let end = list.part.start + list.part.size;
    let (last, pipes) = interfaces::list(&list.lent[..end], list.part.start, count).ok()?;
    if last != end {
        return None;
    }
    Some(pipes)
}

// No descriptor beside flag 0, and at least 9 bytes beside another.
fn descriptor_sized(flag: u32, size: usize) -> bool
    ensures { result ≡ descriptor_sized flag size }
{
    if flag == 0 { size == 0 } else { 9 <= size }
}

#[tactic(auto, unfolding(crate::specs::TsUrb::configuration_stated))]
fn configuration(lent: &[u8], b: SelectConfigurationFields) -> Option<Urb>
    ensures { result ≡ configuration_stated lent.now b }
{
    if 255 < b.flag {
        return None;
    }
    let list = lent_part(lent, b.interfaces)?;
    let d = lent_part(lent, b.descriptor)?;
    if !descriptor_sized(b.flag, b.descriptor.size) {
        return None;
    }
    let pipes = list_pipes(list, b.count)?;
    let behind = &d.lent[d.part.start..];
    Some(Urb::SelectConfiguration(SelectConfiguration {
        flag: b.flag,
        count: b.count,
        interfaces: b.interfaces,
        pipes,
        descriptor: Descriptor {
            part: b.descriptor,
            first: byte_at(behind, 0),
            second: byte_at(behind, 1),
        },
    }))
}

#[tactic(auto, unfolding(crate::specs::TsUrb::interface_stated))]
fn interface(lent: &[u8], b: SelectInterfaceFields) -> Option<Urb>
    ensures { result ≡ interface_stated lent.now b }
{
    let pipes = list_pipes(lent_part(lent, b.interface)?, 1)?;
    Some(Urb::SelectInterface(SelectInterface {
        handle: b.handle,
        interface: b.interface,
        pipes,
    }))
}

#[tactic(auto, unfolding(crate::specs::TsUrb::control_stated))]
fn control(lent: &[u8], b: ControlTransfer) -> Option<Urb>
    ensures { result ≡ control_stated lent.now b }
{
    if part::allowed(lent, b.setup) && b.setup.size == 8 {
        Some(Urb::ControlTransfer(b))
    } else {
        None
    }
}

#[tactic(auto, unfolding(crate::specs::TsUrb::isoch_stated))]
fn isoch(lent: &[u8], b: IsochTransferFields) -> Option<Urb>
    ensures { result ≡ isoch_stated lent.now b }
{
    if !part::allowed(lent, b.list) || b.list.size % 12 != 0 {
        return None;
    }
    Some(Urb::IsochTransfer(IsochTransfer {
        pipe: b.pipe,
        flags: b.flags,
        start: b.start,
        packets: (b.list.size / 12) as u32,
        errors: b.errors,
        list: b.list,
    }))
}

// Whether a structure has a function.
fn suits(function: u32, structure: Structure) -> bool
    ensures { result ≡ suited function structure }
{
    match structure {
        Structure::SelectConfiguration(_) => function == SelectConfiguration::FUNCTION,
        Structure::SelectInterface(_) => function == SelectInterface::FUNCTION,
        Structure::GetCurrentFrameNumber => function == GetCurrentFrameNumber::FUNCTION,
        Structure::PipeRequest(_) => {
            function == PipeRequest::ABORT_PIPE
                || function == PipeRequest::SYNC_RESET_PIPE_AND_CLEAR_STALL
        }
        Structure::BulkOrInterruptTransfer(_) => function == BulkOrInterruptTransfer::FUNCTION,
        Structure::ControlTransfer(_) => function == ControlTransfer::FUNCTION,
        Structure::IsochTransfer(_) => function == IsochTransfer::FUNCTION,
    }
}

// A structure under a function that it has.
#[tactic(auto, unfolding(crate::specs::TsUrb::stated_of))]
pub(crate) fn state(function: u32, structure: Structure, lent: &[u8]) -> Option<Urb>
    ensures { result ≡ stated_of lent.now function structure }
{
    if !suits(function, structure) {
        return None;
    }
    match structure {
        Structure::SelectConfiguration(b) => configuration(lent, b),
        Structure::SelectInterface(b) => interface(lent, b),
        Structure::GetCurrentFrameNumber => Some(Urb::GetCurrentFrameNumber),
        Structure::PipeRequest(b) => Some(Urb::PipeRequest(b)),
        Structure::BulkOrInterruptTransfer(b) => Some(Urb::BulkOrInterruptTransfer(b)),
        Structure::ControlTransfer(b) => control(lent, b),
        Structure::IsochTransfer(b) => isoch(lent, b),
    }
}

// Its bytes, those of its header too.
pub(crate) fn size(structure: Structure) -> usize
    requires { Small structure }
    ensures { (result ≡ structure_size structure) × (result ≤ 131086) }
{
    match structure {
        Structure::SelectConfiguration(b) => 16 + b.interfaces.size + b.descriptor.size,
        Structure::SelectInterface(b) => 12 + b.interface.size,
        Structure::GetCurrentFrameNumber => 8,
        Structure::PipeRequest(_) => 12,
        Structure::BulkOrInterruptTransfer(_) => 16,
        Structure::ControlTransfer(b) => 16 + b.setup.size,
        Structure::IsochTransfer(b) => 28 + b.list.size,
    }
}

fn configuration_pieces(b: SelectConfigurationFields) -> [Piece; 6]
    ensures { result ≡ structure_pieces (structure.SelectConfiguration b) }
{
    let mut p = [Piece::Nothing; 6];
    p[0] = Piece::Word(b.flag as usize);
    p[1] = Piece::Word(b.count as usize);
    p[2] = Piece::Interfaces(b.interfaces);
    p[3] = Piece::Run(b.descriptor);
    p
}

fn isoch_pieces(b: IsochTransferFields) -> [Piece; 6]
    ensures { result ≡ structure_pieces (structure.IsochTransfer b) }
{
    [
        Piece::Word(b.pipe as usize),
        Piece::Word(b.flags as usize),
        Piece::Word(b.start as usize),
        Piece::Word(b.list.size / 12),
        Piece::Word(b.errors as usize),
        Piece::Run(b.list),
    ]
}

// The pieces behind its header.
pub(crate) fn pieces(structure: Structure) -> [Piece; 6]
    ensures { result ≡ structure_pieces structure }
{
    let mut p = [Piece::Nothing; 6];
    match structure {
        Structure::SelectConfiguration(b) => configuration_pieces(b),
        Structure::SelectInterface(b) => {
            p[0] = Piece::Word(b.handle as usize);
            p[1] = Piece::Interfaces(b.interface);
            p
        }
        Structure::GetCurrentFrameNumber => p,
        Structure::PipeRequest(b) => {
            p[0] = Piece::Word(b.pipe as usize);
            p
        }
        Structure::BulkOrInterruptTransfer(b) => {
            p[0] = Piece::Word(b.pipe as usize);
            p[1] = Piece::Word(b.flags as usize);
            p
        }
        Structure::ControlTransfer(b) => {
            p[0] = Piece::Word(b.pipe as usize);
            p[1] = Piece::Word(b.flags as usize);
            p[2] = Piece::Run(b.setup);
            p
        }
        Structure::IsochTransfer(b) => isoch_pieces(b),
    }
}
