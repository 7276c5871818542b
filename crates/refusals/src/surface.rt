// The setting of a surface that is outside its limits.
ghost use Rattle.refusals.specs.Refusals.{surface_refusal};

use crate::refused::Refused;
use crate::values::Values;

#[derive(Clone, Copy, Debug, PartialEq, Eq)]
pub enum SurfaceSetting {
    Retention = 1,
    FullWater,
    FirstShape,
    SecondShape,
}

impl Refused for SurfaceSetting {
    ghost refusal = { surface_refusal };

    fn number(&self) -> u32 {
        12
    }

    fn values(&self) -> Values {
        Values::One(*self as u64)
    }
}
