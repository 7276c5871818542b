// A profile has its ten layers already.
ghost use Rattle.refusals.specs.Refusals.{profile_refusal};

use crate::refused::Refused;
use crate::values::Values;

#[derive(Clone, Copy, Debug, PartialEq, Eq)]
pub struct ProfileFull;

impl Refused for ProfileFull {
    ghost refusal = { profile_refusal };

    fn number(&self) -> u32 {
        13
    }

    fn values(&self) -> Values {
        Values::One(10)
    }
}
