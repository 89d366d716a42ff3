// CANCEL_REQUEST (000 2.2.6.1), kind 13; wire::cancel_request has its layout.
ghost use Rattle.std.specs.Prelude.{◌≡◌};
ghost use Rattle.writer.specs.SharedMsgHeader.{interface_allowed, padded};
ghost use Rattle.writer.specs.CancelRequest.{cancel_request_pieces};

use crate::shared_msg_header::{interface_allowed, start};
use header::ids::MessageId;
use pieces::piece::Piece;
use wire::cancel_request::CancelRequest;

// Any RequestId is a value.
pub(crate) fn allowed(interface: u32) -> bool
    ensures { result ≡ interface_allowed interface }
{
    interface_allowed(interface)
}

pub(crate) fn pieces(id: MessageId, interface: u32, b: CancelRequest) -> [Piece; 20]
    ensures { result ≡ padded (cancel_request_pieces id interface b) }
{
    let mut p = start(interface, CancelRequest::MASK, id, CancelRequest::FUNCTION);
    p[3] = Piece::Word(b.request.number() as usize);
    p
}
