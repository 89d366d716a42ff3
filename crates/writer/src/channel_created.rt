// CHANNEL_CREATED (000 2.2.5.1), kinds 3 and 4; wire::channel_created has its layout.
ghost use Rattle.std.specs.Prelude.{◌≡◌};
ghost use Rattle.writer.specs.SharedMsgHeader.{padded};
ghost use Rattle.wire.specs.ChannelCreated.{channel_created_allowed};
ghost use Rattle.writer.specs.ChannelCreated.{channel_created_pieces};

use crate::shared_msg_header::start;
use header::ids::MessageId;
use pieces::piece::Piece;
use wire::channel_created::ChannelCreated;

// By the reader's definition, as in capability_request.rt.
pub(crate) fn allowed(b: ChannelCreated) -> bool
    ensures { result ≡ channel_created_allowed b }
{
    b.major == 1 && b.minor == 0 && b.capabilities == 0
}

// The interface is that of the side that sends it.
pub(crate) fn pieces(id: MessageId, interface: u32, b: ChannelCreated) -> [Piece; 20]
    ensures { result ≡ padded (channel_created_pieces id interface b) }
{
    let mut p = start(
        interface,
        ChannelCreated::MASK,
        id,
        ChannelCreated::FUNCTION,
    );
    p[3] = Piece::Word(b.major as usize);
    p[4] = Piece::Word(b.minor as usize);
    p[5] = Piece::Word(b.capabilities as usize);
    p
}
