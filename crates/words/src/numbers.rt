// Little-endian numbers at a place of a message. A byte past the end counts as 0, so that a number can be read anywhere; whether it is there is the size
// reader's question.
ghost use Rattle.std.specs.Prelude.{◌≡◌, ◌-◌, ◌<◌, length};
ghost use Rattle.words.specs.Words.{byte_at, half_at, word_at};

pub fn byte_at(s: &[u8], at: usize) -> u32
    ensures { (result ≡ byte_at s.now at) × (result < 256) }
{
    if at < s.len() { u32::from(s[at]) } else { 0 }
}

pub fn u16_at(s: &[u8], at: usize) -> u32
    ensures { result ≡ half_at s.now at }
{
    if at < s.len() {
        byte_at(s, at) + 256 * byte_at(s, at + 1)
    } else {
        0
    }
}

pub fn u32_at(s: &[u8], at: usize) -> u32
    ensures { result ≡ word_at s.now at }
{
    if at < s.len() {
        byte_at(s, at)
            + 256 * byte_at(s, at + 1)
            + 65536 * byte_at(s, at + 2)
            + 16777216 * byte_at(s, at + 3)
    } else {
        0
    }
}

// How many bytes there are from a place on. A message's sizes are compared with this, so that no sum can wrap.
pub fn rest(s: &[u8], at: usize) -> usize
    ensures { result ≡ length s.now - at }
{
    s.len().saturating_sub(at)
}
