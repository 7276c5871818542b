// The setting of a site that is outside its limits.
ghost use Rattle.refusals.specs.Refusals.{site_refusal};

use crate::refused::Refused;
use crate::values::Values;

#[derive(Clone, Copy, Debug, PartialEq, Eq)]
pub enum SiteSetting {
    Area = 1,
    SiteReach,
    SiteStation,
}

impl Refused for SiteSetting {
    ghost refusal = { site_refusal };

    fn number(&self) -> u32 {
        12
    }

    fn values(&self) -> Values {
        Values::One(*self as u64)
    }
}
