// The setting of a soil layer that is outside its limits.
ghost use Rattle.refusals.specs.Refusals.{layer_refusal};

use crate::refused::Refused;
use crate::values::Values;

#[derive(Clone, Copy, Debug, PartialEq, Eq)]
pub enum LayerSetting {
    WiltingPoint = 1,
    FieldCapacity,
    SoilWater,
    Percolation,
    Lateral,
    DemandShare,
}

impl Refused for LayerSetting {
    ghost refusal = { layer_refusal };

    fn number(&self) -> u32 {
        12
    }

    fn values(&self) -> Values {
        Values::One(*self as u64)
    }
}
