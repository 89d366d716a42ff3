// Three numbers of the protocol that may never stand in for one another (01 "The gate's duties").
//
// Their fields are private, and each is made only by a reader, out of four bytes of a message at a place (docs/DECISIONS.md, 14). `number` and no `From`: the name says what is wanted of an id.
ghost use Rattle.std.specs.Prelude.{◌≡◌};
ghost use Rattle.words.specs.Words.{word_at};
ghost use Rattle.header.specs.Ids.{assignable, interface_in, mask_in, message_in, request_in, urb_request_in, no_ack_in};

use words::numbers::u32_at;

#[derive(Clone, Copy)]
pub struct InterfaceId(u32);

#[derive(Clone, Copy)]
pub struct MessageId(u32);

#[derive(Clone, Copy, PartialEq, Eq)]
pub struct RequestId(u32);

impl InterfaceId {
    // The low 30 bits of a word that names an interface (000 2.2.1).
    pub fn read(m: &[u8], at: usize) -> InterfaceId
        ensures { result ≡ interface_in (word_at m.now at) }
    {
        InterfaceId(u32_at(m, at) % 0x4000_0000)
    }

    // The top 2 bits of such a word: the header's Mask.
    pub fn mask(m: &[u8], at: usize) -> u32
        ensures { result ≡ mask_in (word_at m.now at) }
    {
        u32_at(m, at) / 0x4000_0000
    }

    // The first interface that a message may give to a device or a callback: those below are the defaults.
    pub const FIRST_ASSIGNABLE: u32 = 4;

    pub fn assignable(self) -> bool
        ensures { result ≡ assignable self }
    {
        InterfaceId::FIRST_ASSIGNABLE <= self.0
    }

    pub fn number(self) -> u32
        ensures { result ≡ self.0 }
    {
        self.0 // of 30 bits
    }
}

impl MessageId {
    pub fn read(m: &[u8], at: usize) -> MessageId
        ensures { result ≡ message_in (word_at m.now at) }
    {
        MessageId(u32_at(m, at))
    }

    pub fn number(self) -> u32
        ensures { result ≡ self.0 }
    {
        self.0 // of 32 bits
    }
}

impl RequestId {
    // A RequestId field of its own: all 32 bits.
    pub fn read(m: &[u8], at: usize) -> RequestId
        ensures { result ≡ request_in (word_at m.now at) }
    {
        RequestId(u32_at(m, at))
    }

    // The RequestId of a TS_URB_HEADER: 31 bits, since the top bit is NoAck (000 2.2.9.1.1).
    pub fn read_urb(m: &[u8], at: usize) -> RequestId
        ensures { result ≡ urb_request_in (word_at m.now at) }
    {
        RequestId(u32_at(m, at) % 0x8000_0000)
    }

    // That top bit.
    pub fn no_ack(m: &[u8], at: usize) -> bool
        ensures { result ≡ no_ack_in (word_at m.now at) }
    {
        0x8000_0000 <= u32_at(m, at)
    }

    pub fn number(self) -> u32
        ensures { result ≡ self.0 }
    {
        self.0 // of 31 bits in a TsUrb, of 32 elsewhere
    }
}
