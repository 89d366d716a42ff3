// USB_DEVICE_CAPABILITIES (000 2.2.11), the 28 bytes at the end of ADD_DEVICE: ROWS and the rule below it are all that is asked of them.
ghost use Rattle.std.specs.Prelude.{◌≡◌, ◌+◌, ◌<◌, ◌≤◌, length};
ghost use Rattle.words.specs.Words.{word_at};
ghost use Rattle.device.specs.DeviceCapabilities.{capabilities_of, capabilities_allowed, capability_rows, offset_at, rows_allow, field_by, value_of, among, speed_suits_bus};

use crate::device_capabilities::Field::{
    CbSize, DeviceIsHighSpeed, HcdCapabilities, NoAckIsochWriteJitterBufferSizeInMs,
    Supported_USB_Version, USBDI_Version, UsbBusInterfaceVersion,
};
use crate::device_capabilities::Values::{One, OneOr, Three, Two};
use words::layout::Fault;
use words::numbers::{rest, u32_at};

// The seven fields in order, of four bytes each, the lowest first: where each starts, its name in 000, the values that it may have. OneOr(0, 10, 512) is 0 and
// everything from 10 to 512, both among them.
const ROWS: [Row; 7] = [
    Row(0, CbSize, One(28)),
    Row(4, UsbBusInterfaceVersion, Three(0, 1, 2)),
    Row(8, USBDI_Version, Two(0x500, 0x600)),
    Row(12, Supported_USB_Version, Three(0x100, 0x110, 0x200)),
    Row(16, HcdCapabilities, One(0)),
    Row(20, DeviceIsHighSpeed, Two(0, 1)),
    Row(24, NoAckIsochWriteJitterBufferSizeInMs, OneOr(0, 10, 512)),
];

// The one rule that joins two fields: where UsbBusInterfaceVersion is 0, DeviceIsHighSpeed is 0.
fn speed_suits_bus(c: DeviceCapabilities) -> bool
    ensures { result ≡ speed_suits_bus c.bus c.speed }
{
    c.bus != 0 || c.speed == 0
}

#[derive(Clone, Copy)]
struct Row(usize, Field, Values);

#[derive(Clone, Copy)]
enum Field {
    CbSize,
    UsbBusInterfaceVersion,
    USBDI_Version,
    Supported_USB_Version,
    HcdCapabilities,
    DeviceIsHighSpeed,
    NoAckIsochWriteJitterBufferSizeInMs,
}

#[derive(Clone, Copy)]
enum Values {
    One(u32),
    Two(u32, u32),
    Three(u32, u32, u32),
    OneOr(u32, u32, u32),
}

#[derive(Clone, Copy)]
pub struct DeviceCapabilities {
    pub size: u32,
    pub bus: u32,
    pub usbdi: u32,
    pub usb: u32,
    pub host: u32,
    pub speed: u32,
    pub jitter: u32,
}

#[tactic(auto, unfolding(crate::specs::DeviceCapabilities::capabilities_of, crate::specs::DeviceCapabilities::capability_rows))]
pub fn read(m: &[u8], at: usize) -> Result<(DeviceCapabilities, usize), Fault>
    ensures { result ≡ capabilities_of m.now at }
{
    let left = rest(m, at);
    if left < 28 {
        return Err(Fault::RanOut(at + left / 4 * 4));
    }
    Ok((
        DeviceCapabilities {
            size: word(m, at, 0),
            bus: word(m, at, 1),
            usbdi: word(m, at, 2),
            usb: word(m, at, 3),
            host: word(m, at, 4),
            speed: word(m, at, 5),
            jitter: word(m, at, 6),
        },
        at + 28,
    ))
}

// The field of row k of ROWS, where all 28 bytes are there.
fn word(m: &[u8], at: usize, k: usize) -> u32
    requires { (k < 7) × (at + 28 ≤ length m.now) }
    ensures { result ≡ word_at m.now (at + offset_at k) }
{
    let rows = rows();
    u32_at(m, at + rows[k].0)
}

#[tactic(auto, unfolding(crate::specs::DeviceCapabilities::capabilities_allowed))]
pub fn allowed(c: DeviceCapabilities) -> bool
    ensures { result ≡ capabilities_allowed c }
{
    rows_allow(c) && speed_suits_bus(c)
}

fn rows_allow(c: DeviceCapabilities) -> bool
    ensures { result ≡ rows_allow (field_by c) capability_rows }
{
    rows().iter().all(|row| row_allows(*row, c))
}

fn row_allows(row: Row, c: DeviceCapabilities) -> bool
    ensures { result ≡ among row.2 (field_by c row) }
{
    let field = row.1;
    let values = row.2;
    is_among(values, value_of(field, c))
}

#[tactic(auto, unfolding(crate::specs::DeviceCapabilities::capability_rows))]
fn rows() -> [Row; 7]
    ensures { result ≡ capability_rows }
{
    ROWS
}

// The field that has this name in 000.
fn value_of(field: Field, c: DeviceCapabilities) -> u32
    ensures { result ≡ value_of c field }
{
    match field {
        CbSize => c.size,
        UsbBusInterfaceVersion => c.bus,
        USBDI_Version => c.usbdi,
        Supported_USB_Version => c.usb,
        HcdCapabilities => c.host,
        DeviceIsHighSpeed => c.speed,
        NoAckIsochWriteJitterBufferSizeInMs => c.jitter,
    }
}

fn is_among(values: Values, v: u32) -> bool
    ensures { result ≡ among values v }
{
    match values {
        One(a) => v == a,
        Two(a, b) => v == a || v == b,
        Three(a, b, c) => v == a || (v == b || v == c),
        OneOr(a, low, high) => v == a || (low <= v && v <= high),
    }
}
