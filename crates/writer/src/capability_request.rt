// RIM_EXCHANGE_CAPABILITY_REQUEST (000 2.2.3.1), kind 1; wire::capability_request has its layout.
ghost use Rattle.std.specs.Prelude.{◌≡◌};
ghost use Rattle.wire.specs.CapabilityRequest.{capability_request_allowed};
ghost use Rattle.writer.specs.SharedMsgHeader.{padded};
ghost use Rattle.writer.specs.CapabilityRequest.{capability_request_pieces};

use crate::shared_msg_header::start;
use header::ids::MessageId;
use pieces::piece::Piece;
use wire::capability_request::CapabilityRequest;

// The definition is the reader's; the reader's test is its crate's own, and would be a promise to all if it were not.
pub(crate) fn allowed(b: CapabilityRequest) -> bool
    ensures { result ≡ capability_request_allowed b }
{
    b.capability == 1
}

pub(crate) fn pieces(id: MessageId, b: CapabilityRequest) -> [Piece; 20]
    ensures { result ≡ padded (capability_request_pieces id b) }
{
    let mut p = start(
        CapabilityRequest::INTERFACE,
        CapabilityRequest::MASK,
        id,
        CapabilityRequest::FUNCTION,
    );
    p[3] = Piece::Word(b.capability as usize);
    p
}
