// SHARED_MSG_HEADER (000 2.2.1), the first 12 bytes of a message.
//
//    0  InterfaceId  30 bits
//       Mask          2 bits, the top ones of the same word
//    4  MessageId     4
//    8  FunctionId    4  (kind 2 has none: its CapabilityValue stands there)
ghost use Rattle.std.specs.Prelude.{◌≡◌};
ghost use Rattle.header.specs.Header.{header_of};

use crate::ids::{InterfaceId, MessageId};
use words::numbers::u32_at;

#[derive(Clone, Copy)]
pub struct Header {
    pub interface: InterfaceId,
    pub mask: u32,
    pub message: MessageId,
    pub function: u32,
}

// The header of a message of at least 12 bytes.
#[tactic(auto, unfolding(crate::specs::Header::header_of))]
pub fn read(m: &[u8]) -> Option<Header>
    ensures { result ≡ header_of m.now }
{
    if m.len() < 12 {
        return None;
    }
    Some(Header {
        interface: InterfaceId::read(m, 0),
        mask: InterfaceId::mask(m, 0),
        message: MessageId::read(m, 4),
        function: u32_at(m, 8),
    })
}
