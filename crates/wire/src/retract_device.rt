// RETRACT_DEVICE (000 2.2.6.9), kind 14. Its interface is the device's.
//
//   12  Reason  4  1 (000 2.2.8)
ghost use Rattle.std.specs.Prelude.{refl};
ghost use Rattle.wire.specs.Reading.{retract_device_body};
ghost use Rattle.wire.specs.declared.message.Asked.TheVariants as asks;
ghost use Rattle.wire.specs.RetractDevice.{retract_device_of, retract_device_allowed};

use crate::body::MessageBody;
use crate::message::Asked;
use words::layout::{Fault, ended, field};
use words::numbers::u32_at;

#[derive(Clone, Copy)]
pub struct RetractDevice {
    pub reason: u32,
}

impl RetractDevice {
    pub const MASK: u32 = 1;

    pub const FUNCTION: u32 = 0x107;
}

// One word, as kind 1 has one: two types, as the trait wants.
impl MessageBody for RetractDevice {
    ghost reading = { retract_device_of };

    ghost fits = { retract_device_allowed };

    ghost asks = { λ b. asks.Retract };

    ghost body = { retract_device_body };

    #[tactic(auto, unfolding(crate::specs::RetractDevice::retract_device_of))]
    fn read(m: &[u8]) -> Result<RetractDevice, Fault> {
        field(m, 12, 4)?;
        ended(m, 16)?;
        Ok(RetractDevice {
            reason: u32_at(m, 12),
        })
    }

    fn allowed(self) -> bool {
        self.reason == 1
    }

    fn asked(self) -> Asked {
        Asked::Retract
    }

    ghost says = { λ b. refl };
}
