// The setting of an aquifer that is outside its limits.
ghost use Rattle.refusals.specs.Refusals.{aquifer_refusal};

use crate::refused::Refused;
use crate::values::Values;

#[derive(Clone, Copy, Debug, PartialEq, Eq)]
pub enum AquiferSetting {
    GroundWater = 1,
    DeepShare,
    FlowThreshold,
    FlowShare,
}

impl Refused for AquiferSetting {
    ghost refusal = { aquifer_refusal };

    fn number(&self) -> u32 {
        12
    }

    fn values(&self) -> Values {
        Values::One(*self as u64)
    }
}
