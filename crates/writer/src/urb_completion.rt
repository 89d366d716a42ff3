// URB_COMPLETION (000 2.2.7.2), kind 16, and URB_COMPLETION_NO_DATA (000 2.2.7.3), kind 17; wire::ts_urb_result has what they begin with. CbTsUrbResult and the result's own Size are
// computed, and so is the OutputBufferSize of a kind 16; that of a kind 17, which announces no bytes of this message, is given.
ghost use Rattle.std.specs.Prelude.{◌≡◌, ◌≤◌};
ghost use Rattle.wire.specs.Message.{empty_part};
ghost use Rattle.writer.specs.SharedMsgHeader.{padded};
ghost use Rattle.writer.specs.UrbCompletion.{completion_pieces, result_given, urb_completion_given};

use crate::part;
use crate::shared_msg_header::{interface_allowed, start};
use header::ids::{MessageId, RequestId};
use pieces::piece::Piece;
use wire::urb_completion::UrbCompletion;
use wire::urb_completion_no_data::UrbCompletionNoData;
use words::layout::Part;
use words::numbers::rest;

// What both begin with.
#[derive(Clone, Copy)]
pub struct UrbResultFields {
    pub request: RequestId,
    // UsbdStatus
    pub status: u32,
    // the result's bytes behind its header of 8
    pub rest: Part,
    // HResult
    pub result: u32,
}

#[derive(Clone, Copy)]
pub struct UrbCompletionFields {
    pub urb: UrbResultFields,
    pub output: Part,
}

#[derive(Clone, Copy)]
pub struct UrbCompletionNoDataFields {
    pub urb: UrbResultFields,
    // OutputBufferSize
    pub size: u32,
}

pub(crate) fn result_allowed(interface: u32, b: UrbResultFields, lent: &[u8]) -> bool
    ensures { result ≡ result_given lent.now interface b }
{
    interface_allowed(interface) && part::allowed(lent, b.rest)
}

// A kind 16 has data.
pub(crate) fn allowed(interface: u32, b: UrbCompletionFields, lent: &[u8]) -> bool
    ensures { result ≡ urb_completion_given lent.now interface b }
{
    result_allowed(interface, b.urb, lent) && part::allowed(lent, b.output) && b.output.size != 0
}

// OutputBufferSize is `size`, and the bytes behind it are `output`.
fn result_pieces(
    id: MessageId,
    interface: u32,
    function: u32,
    b: UrbResultFields,
    size: usize,
    output: Part,
) -> [Piece; 20]
    requires { b.rest.size ≤ 65535 }
    ensures { result ≡ padded (completion_pieces id interface function b size output) }
{
    let mut p = start(interface, UrbCompletion::MASK, id, function);
    let cb = 8 + b.rest.size;
    p[3] = Piece::Word(b.request.number() as usize);
    p[4] = Piece::Word(cb);
    p[5] = Piece::Word(cb);
    p[6] = Piece::Word(b.status as usize);
    p[7] = Piece::Run(b.rest);
    p[8] = Piece::Word(b.result as usize);
    p[9] = Piece::Word(size);
    p[10] = Piece::Run(output);
    p
}

pub(crate) fn pieces(id: MessageId, interface: u32, b: UrbCompletionFields) -> [Piece; 20]
    requires { b.urb.rest.size ≤ 65535 }
    ensures { result ≡ padded (completion_pieces id interface 0x101 b.urb b.output.size b.output) }
{
    result_pieces(
        id,
        interface,
        UrbCompletion::FUNCTION,
        b.urb,
        b.output.size,
        b.output,
    )
}

pub(crate) fn no_data_pieces(
    id: MessageId,
    interface: u32,
    b: UrbCompletionNoDataFields,
) -> [Piece; 20]
    requires { b.urb.rest.size ≤ 65535 }
    ensures { result ≡ padded (completion_pieces id interface 0x102 b.urb b.size empty_part) }
{
    result_pieces(
        id,
        interface,
        UrbCompletionNoData::FUNCTION,
        b.urb,
        b.size as usize,
        Part::EMPTY,
    )
}
