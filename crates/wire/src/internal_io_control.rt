// INTERNAL_IO_CONTROL (000 2.2.6.4), kind 9: the layout of IO_CONTROL under a function number of its own.

#[derive(Clone, Copy)]
pub struct InternalIoControl {}

impl InternalIoControl {
    pub const MASK: u32 = 1;

    pub const FUNCTION: u32 = 0x103;
}
