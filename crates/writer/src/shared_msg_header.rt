// SHARED_MSG_HEADER (000 2.2.1), the first pieces of a message; header::shared_msg_header has its layout.
ghost use Rattle.std.specs.Prelude.{◌≡◌};
ghost use Rattle.writer.specs.SharedMsgHeader.{head, interface_allowed, padded};

use header::ids::{InterfaceId, MessageId};
use pieces::piece::Piece;

// An interface of a device or a callback: 4 or above, of 30 bits.
pub(crate) fn interface_allowed(interface: u32) -> bool
    ensures { result ≡ interface_allowed interface }
{
    InterfaceId::FIRST_ASSIGNABLE <= interface && interface < 0x4000_0000
}

// The first pieces; the others stay Nothing: a message has at most so many, and nothing is allocated.
pub(crate) fn start(interface: u32, mask: u32, id: MessageId, function: u32) -> [Piece; 20]
    ensures { result ≡ padded (head interface mask id function) }
{
    let mut p = [Piece::Nothing; 20];
    p[0] = Piece::Word(interface as usize + 0x4000_0000 * mask as usize);
    p[1] = Piece::Word(id.number() as usize);
    p[2] = Piece::Word(function as usize);
    p
}
