// A store's water passes its limit, or would with the inflow.
ghost use Rattle.refusals.specs.Refusals.{store_refusal};

use crate::refused::Refused;
use crate::values::Values;

#[derive(Clone, Copy, Debug, PartialEq, Eq)]
pub struct Overfull;

impl Refused for Overfull {
    ghost refusal = { store_refusal };

    fn number(&self) -> u32 {
        41
    }

    fn values(&self) -> Values {
        Values::One(0)
    }
}
