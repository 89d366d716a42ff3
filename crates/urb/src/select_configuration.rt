// TS_URB_SELECT_CONFIGURATION (000 2.2.9.2).
//
//   24  ConfigurationDescriptorIsValid  1
//   25  Padding                         3
//   28  NumInterfaces                   4  at most 32
//   32  interfaces                      as many
//    e  USB_CONFIGURATION_DESCRIPTOR    the rest, at least 9 bytes, only where the flag is not 0
//         its first two bytes are 9 and 2
ghost use Rattle.std.specs.Prelude.{◌≡◌, ◌≤◌};
ghost use Rattle.urb.specs.SelectConfiguration.{select_configuration_of, configuration_of, descriptor_of};

use crate::interfaces;
use crate::ts_urb::Urb;
use words::layout::{Fault, Part, field};
use words::numbers::{byte_at, rest, u32_at};

#[derive(Clone, Copy)]
pub struct SelectConfiguration {
    pub flag: u32,
    pub count: u32,
    pub interfaces: Part,
    // the largest NumberOfPipes of its interfaces
    pub pipes: u32,
    // no Option: that there is one is the flag, which is kept as it came
    pub descriptor: Descriptor,
}

// The configuration descriptor and its first two bytes, 0 where there is none.
#[derive(Clone, Copy)]
pub struct Descriptor {
    pub part: Part,
    pub first: u32,
    pub second: u32,
}

impl SelectConfiguration {
    pub const FUNCTION: u32 = 0x0000;

    pub const MOST_INTERFACES: u32 = 32;
}

#[tactic(auto, unfolding(crate::specs::SelectConfiguration::select_configuration_of))]
pub(crate) fn read(u: &[u8]) -> Result<(Urb, usize), Fault>
    ensures { result ≡ select_configuration_of u.now }
{
    field(u, 24, 1)?;
    field(u, 25, 3)?;
    field(u, 28, 4)?;
    let count = u32_at(u, 28);
    let (end, pipes) = interfaces::list(u, 32, count)?;
    configuration(u, count, end, pipes)
}

// The configuration whose interface list ends at `end`.
#[tactic(auto, unfolding(crate::specs::SelectConfiguration::configuration_of))]
fn configuration(u: &[u8], count: u32, end: usize, pipes: u32) -> Result<(Urb, usize), Fault>
    requires { 32 ≤ end }
    ensures { result ≡ configuration_of u.now count end pipes }
{
    let flag = byte_at(u, 24);
    let (descriptor, last) = read_descriptor(u, flag, end)?;
    let configuration = SelectConfiguration {
        flag,
        count,
        interfaces: Part {
            start: 32,
            size: end - 32,
        },
        pipes,
        descriptor,
    };
    Ok((Urb::SelectConfiguration(configuration), last))
}

// A descriptor and the byte behind it.
#[tactic(auto, unfolding(crate::specs::SelectConfiguration::descriptor_of))]
fn read_descriptor(u: &[u8], flag: u32, at: usize) -> Result<(Descriptor, usize), Fault>
    ensures { result ≡ descriptor_of u.now flag at }
{
    if flag == 0 {
        let none = Descriptor {
            part: Part { start: at, size: 0 },
            first: 0,
            second: 0,
        };
        return Ok((none, at));
    }
    field(u, at, 9)?;
    let descriptor = Descriptor {
        part: Part {
            start: at,
            size: rest(u, at),
        },
        first: byte_at(u, at),
        second: byte_at(u, at + 1),
    };
    Ok((descriptor, u.len()))
}
