// A variable field: a part of the bytes that a caller lends.
ghost use Rattle.std.specs.Prelude.{◌≡◌, ◌+◌, ◌≤◌, ◌↔◌, length, IsTrue, IsSome, IfSome};
ghost use Rattle.writer.specs.Part.{part_allowed};

use words::layout::Part;

#[derive(Clone, Copy)]
pub struct Lent {}

impl Lent {
    // no message is longer (01 "Answer numbers", 4)
    pub const LONGEST: usize = 65535;
}

// Whether a part lies in the lent bytes and goes into a message.
pub(crate) fn allowed(lent: &[u8], part: Part) -> bool
    ensures { result ≡ part_allowed lent.now part }
{
    part.start <= lent.len() && part.size <= lent.len() - part.start && part.size <= Lent::LONGEST
}

// A part of which that holds, with the bytes that it lies in.
#[derive(Clone, Copy)]
pub(crate) struct Held<'a> {
    pub lent: &'a [u8],
    pub part: Part,
    ghost lies: { part.start + part.size ≤ length lent.now },
    ghost fits: { part.size ≤ 65535 },
}

pub(crate) fn lent_part(lent: &[u8], part: Part) -> Option<Held<'_>>
    ensures some { IsTrue (part_allowed lent.now part) ↔ IsSome result }
    ensures same { IfSome result (λ h. (h.lent.now ≡ lent.now) × (h.part ≡ part)) }
{
    if allowed(lent, part) {
        Some(Held { lent, part })
    } else {
        None
    }
}
