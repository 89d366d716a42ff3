// ADD_DEVICE (000 2.2.4.2), kind 6.
//
//   12  NumUsbDevice           4  1
//   16  UsbDevice              4  its low 30 bits are an interface, 4 or above
//   20  DeviceInstanceId       a counted text
//       HardwareIds            a counted list of texts
//       CompatibilityIds       a counted list of texts
//       ContainerId            a counted text
//       UsbDeviceCapabilities  28
ghost use Rattle.std.specs.Prelude.{◌≡◌, refl};
ghost use Rattle.wire.specs.Reading.{add_device_body};
ghost use Rattle.wire.specs.declared.message.Asked.TheVariants as asks;
ghost use Rattle.wire.specs.AddDevice.{add_device_of, pair_of, device_of, text_pair_allowed, add_device_allowed};

use crate::body::MessageBody;
use crate::message::Asked;
use device::device_capabilities;
use device::device_capabilities::DeviceCapabilities;
use header::ids::InterfaceId;
use texts::text;
use texts::text::Text;
use words::layout::{Fault, ended, field};
use words::numbers::u32_at;

// A text and the list or text behind it: the instance id with the hardware ids, or the compatible ids with the container id.
#[derive(Clone, Copy)]
pub struct TextPair {
    pub first: Text,
    pub second: Text,
}

#[derive(Clone, Copy)]
pub struct AddDevice {
    pub count: u32,
    pub device: InterfaceId,
    // the top 2 bits of UsbDevice, which are no part of the interface
    pub top: u32,
    pub instance: Text,
    pub hardware: Text,
    pub compatible: Text,
    pub container: Text,
    pub capabilities: DeviceCapabilities,
}

impl AddDevice {
    pub const MASK: u32 = 1;

    pub const INTERFACE: u32 = 1;

    pub const FUNCTION: u32 = 0x101;
}

impl MessageBody for AddDevice {
    ghost reading = { add_device_of };

    ghost fits = { add_device_allowed };

    ghost asks = { λ b. asks.Device b.device b.capabilities.jitter };

    ghost body = { add_device_body };

    #[tactic(auto, unfolding(crate::specs::AddDevice::add_device_of))]
    fn read(m: &[u8]) -> Result<AddDevice, Fault> {
        field(m, 12, 4)?;
        field(m, 16, 4)?;
        let (names, middle) = pair(m, 20)?;
        let (classes, end) = pair(m, middle)?;
        device(m, names, classes, end)
    }

    #[tactic(auto, unfolding(crate::specs::AddDevice::add_device_allowed))]
    fn allowed(self) -> bool {
        self.count == 1
            && self.device.assignable()
            && pair_allowed(self.instance, self.hardware)
            && pair_allowed(self.container, self.compatible)
            && device_capabilities::allowed(self.capabilities)
    }

    fn asked(self) -> Asked {
        Asked::Device(self.device, self.capabilities.jitter)
    }

    ghost says = { λ b. refl };
}

// Two texts, one behind the other, and the byte behind them.
#[tactic(auto, unfolding(crate::specs::AddDevice::pair_of))]
fn pair(m: &[u8], at: usize) -> Result<(TextPair, usize), Fault>
    ensures { result ≡ pair_of m.now at }
{
    let (first, middle) = text::read(m, at)?;
    let (second, end) = text::read(m, middle)?;
    Ok((TextPair { first, second }, end))
}

// The device, whose texts end at `at`.
#[tactic(auto, unfolding(crate::specs::AddDevice::device_of))]
fn device(m: &[u8], names: TextPair, classes: TextPair, at: usize) -> Result<AddDevice, Fault>
    ensures { result ≡ device_of m.now names classes at }
{
    let (capabilities, end) = device_capabilities::read(m, at)?;
    ended(m, end)?;
    Ok(AddDevice {
        count: u32_at(m, 12),
        device: InterfaceId::read(m, 16),
        top: InterfaceId::mask(m, 16),
        instance: names.first,
        hardware: names.second,
        compatible: classes.first,
        container: classes.second,
        capabilities,
    })
}

fn pair_allowed(single: Text, list: Text) -> bool
    ensures { result ≡ text_pair_allowed single list }
{
    text::allowed(single) && text::list_allowed(list)
}
