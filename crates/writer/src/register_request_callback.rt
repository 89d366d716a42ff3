// REGISTER_REQUEST_CALLBACK (000 2.2.6.2), kind 7; wire::register_request_callback has its layout.
ghost use Rattle.std.specs.Prelude.{◌≡◌};
ghost use Rattle.writer.specs.SharedMsgHeader.{padded};
ghost use Rattle.writer.specs.RegisterRequestCallback.{completion_allowed, register_request_callback_given, register_request_callback_pieces};

use crate::shared_msg_header::{interface_allowed, start};
use header::ids::{InterfaceId, MessageId};
use pieces::piece::Piece;
use wire::register_request_callback::RegisterRequestCallback;

#[derive(Clone, Copy)]
pub struct RegisterRequestCallbackFields {
    // NumRequestCompletion
    pub count: u32,
    pub completion: Option<u32>,
}

// A RequestCompletion exactly when the count is not 0, of an interface that may be given.
fn completion_allowed(count: u32, completion: Option<u32>) -> bool
    ensures { result ≡ completion_allowed count completion }
{
    match completion {
        None => count == 0,
        Some(word) => count != 0 && InterfaceId::FIRST_ASSIGNABLE <= word % 0x4000_0000,
    }
}

pub(crate) fn allowed(interface: u32, b: RegisterRequestCallbackFields) -> bool
    ensures { result ≡ register_request_callback_given interface b }
{
    interface_allowed(interface) && completion_allowed(b.count, b.completion)
}

pub(crate) fn pieces(id: MessageId, interface: u32, b: RegisterRequestCallbackFields) -> [Piece; 20]
    ensures { result ≡ padded (register_request_callback_pieces id interface b) }
{
    let mut p = start(
        interface,
        RegisterRequestCallback::MASK,
        id,
        RegisterRequestCallback::FUNCTION,
    );
    p[3] = Piece::Word(b.count as usize);
    if let Some(word) = b.completion {
        p[4] = Piece::Word(word as usize);
    }
    p
}
