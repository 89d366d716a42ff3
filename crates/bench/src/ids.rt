// The numbers that a bench gives. A MessageId and a RequestId come only out of bytes, so these do too.
use header::ids::{MessageId, RequestId};

// The interfaces of the device and of its callback.
pub(crate) const DEVICE: u32 = 4;

pub(crate) const CALLBACK: u32 = 5;

// One that follows the number of the entry.
pub(crate) fn message(number: u32) -> MessageId {
    let word = [(number % 256) as u8, (number / 256 % 256) as u8, 0, 0];
    MessageId::read(&word, 0)
}

pub(crate) fn request(number: u8) -> RequestId {
    let word = [number, 0, 0, 0];
    RequestId::read(&word, 0)
}
