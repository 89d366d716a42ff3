// IOCONTROL_COMPLETION (000 2.2.7.1), kind 15; wire::io_control_completion has its layout. OutputBufferSize is computed; whether it agrees with HResult is a row's question.
ghost use Rattle.std.specs.Prelude.{◌≡◌};
ghost use Rattle.writer.specs.SharedMsgHeader.{padded};
ghost use Rattle.writer.specs.IoControlCompletion.{io_control_completion_given, io_control_completion_pieces};

use crate::part;
use crate::shared_msg_header::{interface_allowed, start};
use header::ids::{MessageId, RequestId};
use pieces::piece::Piece;
use wire::io_control_completion::IoControlCompletion;
use words::layout::Part;

#[derive(Clone, Copy)]
pub struct IoControlCompletionFields {
    pub request: RequestId,
    pub result: u32,
    pub information: u32,
    pub output: Part,
}

pub(crate) fn allowed(interface: u32, b: IoControlCompletionFields, lent: &[u8]) -> bool
    ensures { result ≡ io_control_completion_given lent.now interface b }
{
    interface_allowed(interface) && part::allowed(lent, b.output)
}

pub(crate) fn pieces(id: MessageId, interface: u32, b: IoControlCompletionFields) -> [Piece; 20]
    ensures { result ≡ padded (io_control_completion_pieces id interface b) }
{
    let mut p = start(
        interface,
        IoControlCompletion::MASK,
        id,
        IoControlCompletion::FUNCTION,
    );
    p[3] = Piece::Word(b.request.number() as usize);
    p[4] = Piece::Word(b.result as usize);
    p[5] = Piece::Word(b.information as usize);
    p[6] = Piece::Word(b.output.size);
    p[7] = Piece::Run(b.output);
    p
}
