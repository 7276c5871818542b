// The setting of a snowpack that is outside its limits.
ghost use Rattle.refusals.specs.Refusals.{snowpack_refusal};

use crate::refused::Refused;
use crate::values::Values;

#[derive(Clone, Copy, Debug, PartialEq, Eq)]
pub enum SnowpackSetting {
    SnowWater = 1,
    PackTemperature,
    SnowfallTemperature,
    MeltTemperature,
    Lag,
    MeltFactor,
}

impl Refused for SnowpackSetting {
    ghost refusal = { snowpack_refusal };

    fn number(&self) -> u32 {
        12
    }

    fn values(&self) -> Values {
        Values::One(*self as u64)
    }
}
