// Reading: bytes behind those that are held already.
ghost use Rattle.std.specs.Prelude.{◌≡◌, ◌-◌, ◌≤◌, IfOk, drop, length, take};

use crate::output::Stop;
use std::io::Read;

// Reads once, behind the `held` bytes at the front, and says where the bytes end that are held then. They end where they did where the input has ended.
pub(crate) fn fetch<R: Read>(reader: &mut R, bytes: &mut [u8], held: usize) -> Result<usize, Stop>
    requires { held ≤ length bytes.old }
    ensures { IfOk result (λ end. (held ≤ end) × (end ≤ length bytes.old)) }
{
    match reader.read(&mut bytes[held..]) {
        Ok(count) => Ok(held + count),
        Err(_) => Err(Stop::Unread),
    }
}

// Moves the bytes from `used` to `end` to the front, and says how many they are.
pub(crate) fn keep(bytes: &mut [u8], used: usize, end: usize) -> usize
    requires { (used ≤ end) × (end ≤ length bytes.old) }
    ensures { (result ≡ end - used) × (take result bytes.new ≡ take result (drop used bytes.old)) }
{
    if 0 < used {
        bytes.copy_within(used..end, 0);
    }
    end - used
}
