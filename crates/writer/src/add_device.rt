// ADD_DEVICE (000 2.2.4.2), kind 6; wire::add_device has its layout. The counts of its texts are computed.
ghost use Rattle.std.specs.Prelude.{◌≡◌, ◌%◌, ◌&&◌, ◌↔◌, eqb, IsTrue, IsSome, IfSome};
ghost use Rattle.writer.specs.Part.{part_allowed};
ghost use Rattle.writer.specs.SharedMsgHeader.{padded};
ghost use Rattle.writer.specs.AddDevice.{add_device_given, add_device_pieces, list_fits, text_fits, text_given, unit_before};

use crate::part::{Held, lent_part};
use crate::shared_msg_header::start;
use device::device_capabilities;
use device::device_capabilities::DeviceCapabilities;
use header::ids::{InterfaceId, MessageId};
use pieces::piece::Piece;
use texts::text;
use texts::text::Text;
use wire::add_device::AddDevice;
use words::layout::Part;
use words::numbers::u16_at;

#[derive(Clone, Copy)]
pub struct AddDeviceFields {
    // NumUsbDevice
    pub count: u32,
    // UsbDevice, its top two bits too
    pub device: u32,
    pub instance: Part,
    pub hardware: Part,
    pub compatible: Part,
    pub container: Part,
    pub capabilities: DeviceCapabilities,
}

// The unit that starts so many bytes before the end of a part, 0 where the part has none.
fn unit_before(part: Held, back: usize) -> u32
    ensures { result ≡ unit_before part.entry.lent.now part.entry.part back }
{
    let Part { start, size } = part.part;
    if size < back {
        0
    } else {
        u16_at(part.lent, start + (size - back))
    }
}

// The text that a reader makes of a part.
fn given(part: Held) -> Text
    ensures { result ≡ text_given part.entry.lent.now part.entry.part }
{
    Text {
        count: (part.part.size / 2) as u32,
        units: part.part,
        last: unit_before(part, 2),
        prior: unit_before(part, 4),
    }
}

// A part of whole units, and its text.
fn whole_units(lent: &[u8], part: Part) -> Option<Text>
    ensures some { IsTrue (part_allowed lent.now part && eqb (part.size % 2) 0) ↔ IsSome result }
    ensures same { IfSome result (λ t. t ≡ text_given lent.now part) }
{
    let text = lent_part(lent, part)?;
    if text.part.size % 2 == 0 {
        Some(given(text))
    } else {
        None
    }
}

fn text_fits(lent: &[u8], part: Part) -> bool
    ensures { result ≡ text_fits lent.now part }
{
    whole_units(lent, part).is_some_and(|t| text::allowed(t))
}

fn list_fits(lent: &[u8], part: Part) -> bool
    ensures { result ≡ list_fits lent.now part }
{
    whole_units(lent, part).is_some_and(|t| text::list_allowed(t))
}

#[tactic(auto, unfolding(crate::specs::AddDevice::add_device_given))]
pub(crate) fn allowed(b: AddDeviceFields, lent: &[u8]) -> bool
    ensures { result ≡ add_device_given lent.now b }
{
    b.count == 1
        && InterfaceId::FIRST_ASSIGNABLE <= b.device % 0x4000_0000
        && text_fits(lent, b.instance)
        && list_fits(lent, b.hardware)
        && list_fits(lent, b.compatible)
        && text_fits(lent, b.container)
        && device_capabilities::allowed(b.capabilities)
}

pub(crate) fn pieces(id: MessageId, b: AddDeviceFields) -> [Piece; 20]
    ensures { result ≡ padded (add_device_pieces id b) }
{
    let h = start(
        AddDevice::INTERFACE,
        AddDevice::MASK,
        id,
        AddDevice::FUNCTION,
    );
    let c = b.capabilities;
    [
        h[0],
        h[1],
        h[2],
        Piece::Word(b.count as usize),
        Piece::Word(b.device as usize),
        Piece::Word(b.instance.size / 2),
        Piece::Run(b.instance),
        Piece::Word(b.hardware.size / 2),
        Piece::Run(b.hardware),
        Piece::Word(b.compatible.size / 2),
        Piece::Run(b.compatible),
        Piece::Word(b.container.size / 2),
        Piece::Run(b.container),
        Piece::Word(c.size as usize),
        Piece::Word(c.bus as usize),
        Piece::Word(c.usbdi as usize),
        Piece::Word(c.usb as usize),
        Piece::Word(c.host as usize),
        Piece::Word(c.speed as usize),
        Piece::Word(c.jitter as usize),
    ]
}
