// The setting of a normal year that is outside its limits.
ghost use Rattle.refusals.specs.Refusals.{normal_year_refusal};

use crate::refused::Refused;
use crate::values::Values;

#[derive(Clone, Copy, Debug, PartialEq, Eq)]
pub enum NormalYearSetting {
    Stations = 1,
    FirstDay,
}

impl Refused for NormalYearSetting {
    ghost refusal = { normal_year_refusal };

    fn number(&self) -> u32 {
        12
    }

    fn values(&self) -> Values {
        Values::One(*self as u64)
    }
}
