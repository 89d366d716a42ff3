// ADD_VIRTUAL_CHANNEL (000 2.2.4.1), kind 5: the header alone.
ghost use Rattle.std.specs.Prelude.{◌≡◌};
ghost use Rattle.writer.specs.SharedMsgHeader.{padded};
ghost use Rattle.writer.specs.AddVirtualChannel.{add_virtual_channel_pieces};

use crate::shared_msg_header::start;
use header::ids::MessageId;
use pieces::piece::Piece;
use wire::add_virtual_channel::AddVirtualChannel;

pub(crate) fn pieces(id: MessageId) -> [Piece; 20]
    ensures { result ≡ padded (add_virtual_channel_pieces id) }
{
    start(
        AddVirtualChannel::INTERFACE,
        AddVirtualChannel::MASK,
        id,
        AddVirtualChannel::FUNCTION,
    )
}
