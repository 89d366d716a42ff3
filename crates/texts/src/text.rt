// A counted text of ADD_DEVICE (000 2.2.4.2): a count of 16-bit units, and the units.
//
//   at    count  4
//   at+4  units  2 * count
ghost use Rattle.std.specs.Prelude.{◌≡◌, ◌*◌, ◌≤◌};
ghost use Rattle.texts.specs.Text.{text_of, unit_back, text_allowed, list_allowed};

use words::layout::{Fault, Part, field};
use words::numbers::{u16_at, u32_at};

#[derive(Clone, Copy)]
pub struct Text {
    pub count: u32,
    pub units: Part,
    // the last unit and the one before it, 0 where the text has none
    pub last: u32,
    pub prior: u32,
}

impl Text {
    pub const MOST: u32 = 512;
}

#[tactic(auto, unfolding(crate::specs::Text::text_of, crate::specs::Text::units_of))]
pub fn read(m: &[u8], at: usize) -> Result<(Text, usize), Fault>
    ensures { result ≡ text_of m.now at }
{
    field(m, at, 4)?;
    let count = u32_at(m, at);
    let start = at + 4;
    let size = 2 * count as usize;
    field(m, start, size)?;
    let end = start + size;
    let text = Text {
        count,
        units: Part { start, size },
        last: unit_back(m, count, end, 1),
        prior: unit_back(m, count, end, 2),
    };
    Ok((text, end))
}

// The unit that stands so many units before the end, 0 where there are fewer.
fn unit_back(m: &[u8], count: u32, end: usize, back: u32) -> u32
    requires count_bound { 2 * count ≤ end }
    ensures { result ≡ unit_back m.now count end back }
{
    if count < back {
        0
    } else {
        u16_at(m, end - 2 * back as usize)
    }
}

// A text that ends in unit 0, if it has a unit.
pub fn allowed(t: Text) -> bool
    ensures { result ≡ text_allowed t }
{
    t.count <= Text::MOST && t.last == 0
}

// A list of texts ends so too, and in two units 0, if it has two.
pub fn list_allowed(t: Text) -> bool
    ensures { result ≡ list_allowed t }
{
    allowed(t) && t.prior == 0
}
