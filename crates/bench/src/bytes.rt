// The bytes of the variable fields.

// Instance id USB1, hardware ids VID, compatible ids C8 and container id {1}, as 16-bit units: the first and the last end in one unit 0, the lists in two.
pub(crate) const TEXTS: [u8; 36] =
    *b"U\x00S\x00B\x001\x00\x00\x00V\x00I\x00D\x00\x00\x00\x00\x00C\x008\x00\x00\x00\x00\x00{\x001\x00}\x00\x00\x00";

// A configuration descriptor of 32 bytes, and room for two interfaces: one with two pipes, and one with one.
pub(crate) const CONFIGURATION: [u8; 92] =
    *b"\x09\x02\x20\x00\x02\x01\x00\x80\x32\x09\x04\x00\x00\x02\x08\x06\x50\x00\x07\x05\x81\x02\x00\x02\x00\x07\x05\x02\x02\x00\x02\x00\x00\x00\x00\x00\x00\x00\x00\x00\x00\x00\x00\x00\x00\x00\x00\x00\x00\x00\x00\x00\x00\x00\x00\x00\x00\x00\x00\x00\x00\x00\x00\x00\x00\x00\x00\x00\x00\x00\x00\x00\x00\x00\x00\x00\x00\x00\x00\x00\x00\x00\x00\x00\x00\x00\x00\x00\x00\x00\x00\x00";

// Interface 0 expects two pipes, of 512 and 512 bytes to a packet.
pub(crate) const FIRST_INTERFACE: [u32; 9] = [2, 0, 0, 512, 65536, 0, 512, 65536, 0];

// Interface 1 expects one, of 64.
pub(crate) const SECOND_INTERFACE: [u32; 6] = [1, 1, 0, 64, 4096, 0];

// Interface 1 in its alternate setting 1.
pub(crate) const OTHER_SETTING: [u32; 6] = [1, 1, 1, 1024, 4096, 0];

// A number of four bytes.
pub(crate) const NUMBER: [u8; 4] = *b"\x39\x30\x00\x00";

// The setup packet that asks for a device descriptor, and behind it such a descriptor.
pub(crate) const SETUP: [u8; 26] =
    *b"\x80\x06\x00\x01\x00\x00\x12\x00\x12\x01\x00\x02\x00\x00\x00\x40\x09\x12\x01\x00\x00\x01\x01\x02\x03\x01";

// A block command of 31 bytes.
pub(crate) const COMMAND: [u8; 31] =
    *b"USBC\x01\x00\x00\x00\x24\x00\x00\x00\x80\x00\x06\x12\x00\x00\x00\x24\x00\x00\x00\x00\x00\x00\x00\x00\x00\x00\x00";

// Two packets of 12 bytes each, and behind their list the bytes themselves.
pub(crate) const PACKETS: [u8; 48] =
    *b"\x00\x00\x00\x00\x0C\x00\x00\x00\x00\x00\x00\x00\x0C\x00\x00\x00\x0C\x00\x00\x00\x00\x00\x00\x00abcdefghijklmnopqrstuvwx";
