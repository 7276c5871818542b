// The figure of a day of weather that is outside its limits.
ghost use Rattle.refusals.specs.Refusals.{day_refusal};

use crate::refused::Refused;
use crate::values::Values;

#[derive(Clone, Copy, Debug, PartialEq, Eq)]
pub enum DayFault {
    DayOfYear = 1,
    Rain,
    Highest,
    Lowest,
    Demand,
}

impl Refused for DayFault {
    ghost refusal = { day_refusal };

    fn number(&self) -> u32 {
        11
    }

    fn values(&self) -> Values {
        Values::One(*self as u64)
    }
}
