// RETRACT_DEVICE (000 2.2.6.9), kind 14; wire::retract_device has its layout.
ghost use Rattle.std.specs.Prelude.{◌≡◌};
ghost use Rattle.writer.specs.SharedMsgHeader.{padded};
ghost use Rattle.writer.specs.RetractDevice.{retract_device_given, retract_device_pieces};

use crate::shared_msg_header::{interface_allowed, start};
use header::ids::MessageId;
use pieces::piece::Piece;
use wire::retract_device::RetractDevice;

// By the reader's definition, as in capability_request.rt.
pub(crate) fn allowed(interface: u32, b: RetractDevice) -> bool
    ensures { result ≡ retract_device_given interface b }
{
    interface_allowed(interface) && b.reason == 1
}

pub(crate) fn pieces(id: MessageId, interface: u32, b: RetractDevice) -> [Piece; 20]
    ensures { result ≡ padded (retract_device_pieces id interface b) }
{
    let mut p = start(interface, RetractDevice::MASK, id, RetractDevice::FUNCTION);
    p[3] = Piece::Word(b.reason as usize);
    p
}
