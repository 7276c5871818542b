// A buffer is too short for a log.
ghost use Rattle.refusals.specs.Refusals.{log_refusal};

use crate::refused::Refused;
use crate::values::Values;

#[derive(Clone, Copy, Debug, PartialEq, Eq)]
pub struct BufferShort {
    // The length that the log needs.
    pub needed: u64,
}

impl Refused for BufferShort {
    ghost refusal = { log_refusal };

    fn number(&self) -> u32 {
        61
    }

    fn values(&self) -> Values {
        Values::One(self.needed)
    }
}
