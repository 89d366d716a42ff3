// RIM_EXCHANGE_CAPABILITY_RESPONSE (000 2.2.3.2), kind 2; wire::capability_response has its layout. CapabilityValue stands where other messages have their function.
ghost use Rattle.std.specs.Prelude.{◌≡◌};
ghost use Rattle.writer.specs.SharedMsgHeader.{padded};
ghost use Rattle.wire.specs.CapabilityResponse.{capability_response_allowed};
ghost use Rattle.writer.specs.CapabilityResponse.{capability_response_pieces};

use crate::shared_msg_header::start;
use header::ids::MessageId;
use pieces::piece::Piece;
use wire::capability_response::CapabilityResponse;
use words::hresult::is_success;

// By the reader's definition, as in capability_request.rt.
pub(crate) fn allowed(b: CapabilityResponse) -> bool
    ensures { result ≡ capability_response_allowed b }
{
    b.capability == 1 && is_success(b.result)
}

pub(crate) fn pieces(id: MessageId, b: CapabilityResponse) -> [Piece; 20]
    ensures { result ≡ padded (capability_response_pieces id b) }
{
    let mut p = start(
        CapabilityResponse::INTERFACE,
        CapabilityResponse::MASK,
        id,
        b.capability,
    );
    p[3] = Piece::Word(b.result as usize);
    p
}
