// TRANSFER_IN_REQUEST (000 2.2.6.7), kind 10, and TRANSFER_OUT_REQUEST (000 2.2.6.8), kind 11, which is kind 12 with NoAck; wire::transfer has what they begin with. CbTsUrb is computed, and
// so is the OutputBufferSize of a kind 11; that of a kind 10, which announces no bytes of this message, is given.
ghost use Rattle.std.specs.Prelude.{◌≡◌};
ghost use Rattle.wire.specs.Message.{empty_part};
ghost use Rattle.writer.specs.SharedMsgHeader.{padded};
ghost use Rattle.writer.specs.TsUrb.{Small};
ghost use Rattle.writer.specs.Transfer.{request_word, transfer_in_given, transfer_out_given, transfer_pieces};

use crate::shared_msg_header::{interface_allowed, start};
use crate::ts_urb::TsUrbFields;
use crate::{part, ts_urb};
use header::ids::{MessageId, RequestId};
use pieces::piece::Piece;
use urb_values::values;
use wire::transfer_in_request::TransferInRequest;
use wire::transfer_out_request::TransferOutRequest;
use words::layout::Part;

#[derive(Clone, Copy)]
pub struct TransferInFields {
    pub urb: TsUrbFields,
    // OutputBufferSize
    pub size: u32,
}

#[derive(Clone, Copy)]
pub struct TransferOutFields {
    pub urb: TsUrbFields,
    pub output: Part,
}

#[tactic(auto, unfolding(crate::specs::Transfer::transfer_in_given))]
pub(crate) fn in_allowed(interface: u32, b: TransferInFields, lent: &[u8]) -> bool
    ensures { result ≡ transfer_in_given lent.now interface b }
{
    let t = b.urb;
    interface_allowed(interface)
        && t.request.number() < 0x8000_0000
        && match ts_urb::state(t.function, t.structure, lent) {
            None => false,
            Some(urb) => values::incoming(t.noack, urb, b.size),
        }
}

#[tactic(auto, unfolding(crate::specs::Transfer::transfer_out_given))]
pub(crate) fn out_allowed(interface: u32, b: TransferOutFields, lent: &[u8]) -> bool
    ensures { result ≡ transfer_out_given lent.now interface b }
{
    let t = b.urb;
    interface_allowed(interface)
        && t.request.number() < 0x8000_0000
        && part::allowed(lent, b.output)
        && match ts_urb::state(t.function, t.structure, lent) {
            None => false,
            Some(urb) => values::outgoing(t.noack, urb),
        }
}

// NoAck is the top bit of the RequestId's word.
fn request_word(request: RequestId, noack: bool) -> usize
    ensures { result ≡ request_word request noack }
{
    if noack {
        return 0x8000_0000 + request.number() as usize;
    }
    request.number() as usize
}

// OutputBufferSize is `size`, and the bytes behind it are `output`.
fn pieces(
    id: MessageId,
    interface: u32,
    function: u32,
    t: TsUrbFields,
    size: usize,
    output: Part,
) -> [Piece; 20]
    requires { Small t.structure }
    ensures { result ≡ padded (transfer_pieces id interface function t size output) }
{
    let cb = ts_urb::size(t.structure);
    let q = ts_urb::pieces(t.structure);
    let mut p = start(interface, TransferInRequest::MASK, id, function);
    p[3] = Piece::Word(cb);
    p[4] = Piece::Word(cb + 65536 * t.function as usize);
    p[5] = Piece::Word(request_word(t.request, t.noack));
    p[6..12].copy_from_slice(&q);
    p[12] = Piece::Word(size);
    p[13] = Piece::Run(output);
    p
}

pub(crate) fn in_pieces(id: MessageId, interface: u32, b: TransferInFields) -> [Piece; 20]
    requires { Small b.urb.structure }
    ensures { result ≡ padded (transfer_pieces id interface 0x105 b.urb b.size empty_part) }
{
    pieces(
        id,
        interface,
        TransferInRequest::FUNCTION,
        b.urb,
        b.size as usize,
        Part::EMPTY,
    )
}

pub(crate) fn out_pieces(id: MessageId, interface: u32, b: TransferOutFields) -> [Piece; 20]
    requires { Small b.urb.structure }
    ensures { result ≡ padded (transfer_pieces id interface 0x106 b.urb b.output.size b.output) }
{
    pieces(
        id,
        interface,
        TransferOutRequest::FUNCTION,
        b.urb,
        b.output.size,
        b.output,
    )
}
