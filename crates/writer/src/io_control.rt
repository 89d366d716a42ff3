// IO_CONTROL (000 2.2.6.3), kind 8, and INTERNAL_IO_CONTROL (000 2.2.6.4), kind 9; wire::io_control has their layout. InputBufferSize is computed; OutputBufferSize, which
// announces no bytes of this message, is given.
ghost use Rattle.std.specs.Prelude.{◌≡◌};
ghost use Rattle.writer.specs.SharedMsgHeader.{padded};
ghost use Rattle.writer.specs.IoControl.{io_control_given, io_control_pieces};

use crate::part;
use crate::shared_msg_header::{interface_allowed, start};
use header::ids::MessageId;
use pieces::piece::Piece;
use wire::io_control::IoControl;

pub(crate) fn allowed(interface: u32, b: IoControl, lent: &[u8]) -> bool
    ensures { result ≡ io_control_given lent.now interface b }
{
    interface_allowed(interface) && part::allowed(lent, b.input)
}

pub(crate) fn pieces(id: MessageId, interface: u32, function: u32, b: IoControl) -> [Piece; 20]
    ensures { result ≡ padded (io_control_pieces id interface function b) }
{
    let mut p = start(interface, IoControl::MASK, id, function);
    p[3] = Piece::Word(b.code as usize);
    p[4] = Piece::Word(b.input.size);
    p[5] = Piece::Run(b.input);
    p[6] = Piece::Word(b.size as usize);
    p[7] = Piece::Word(b.request.number() as usize);
    p
}
