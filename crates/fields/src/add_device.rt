// ADD_DEVICE (000 2.2.4.2), kind 6; wire::add_device has its layout.
ghost use Rattle.std.specs.Prelude.{◌≡◌, ◌+◌, ◌≤◌};
ghost use Rattle.fields.specs.AddDevice.{add_device_in, capabilities_in, units_in};

use device::device_capabilities::DeviceCapabilities;
use words::layout::Part;
use words::numbers::u32_at;
use writer::add_device::AddDeviceFields;

// The units of the text whose count stands at a place.
fn units(m: &[u8], at: usize) -> Part
    requires { at ≤ 68719476736 }
    ensures { (result ≡ units_in m.now at) × (result.start + result.size ≤ at + 8589934594) }
{
    Part {
        start: at + 4,
        size: 2 * u32_at(m, at) as usize,
    }
}

fn capabilities(m: &[u8], at: usize) -> DeviceCapabilities
    requires { at ≤ 68719476736 }
    ensures { result ≡ capabilities_in m.now at }
{
    DeviceCapabilities {
        size: u32_at(m, at),
        bus: u32_at(m, at + 4),
        usbdi: u32_at(m, at + 8),
        usb: u32_at(m, at + 12),
        host: u32_at(m, at + 16),
        speed: u32_at(m, at + 20),
        jitter: u32_at(m, at + 24),
    }
}

#[tactic(auto, unfolding(crate::specs::AddDevice::add_device_in))]
pub(crate) fn read(m: &[u8]) -> AddDeviceFields
    ensures { result ≡ add_device_in m.now }
{
    let instance = units(m, 20);
    let hardware = units(m, instance.start + instance.size);
    let compatible = units(m, hardware.start + hardware.size);
    let container = units(m, compatible.start + compatible.size);
    AddDeviceFields {
        count: u32_at(m, 12),
        device: u32_at(m, 16),
        instance,
        hardware,
        compatible,
        container,
        capabilities: capabilities(m, container.start + container.size),
    }
}
