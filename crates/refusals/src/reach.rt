// The setting of a river reach that is outside its limits.
ghost use Rattle.refusals.specs.Refusals.{reach_refusal};

use crate::refused::Refused;
use crate::values::Values;

#[derive(Clone, Copy, Debug, PartialEq, Eq)]
pub enum ReachSetting {
    Downstream = 1,
    ReachStation,
    StoredWater,
    StorageCoefficient,
    TransmissionLoss,
    WaterSurface,
    EvaporationShare,
}

impl Refused for ReachSetting {
    ghost refusal = { reach_refusal };

    fn number(&self) -> u32 {
        12
    }

    fn values(&self) -> Values {
        Values::One(*self as u64)
    }
}
