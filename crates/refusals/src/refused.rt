// A refusal as logs and other programs know it: by number and values.
ghost use Rattle.std.specs.Prelude.{◌≡◌};
ghost use Rattle.refusals.specs.Refusals.{Refusal, listed};

use crate::values::Values;

// Each kind of setting has an impl of its own: a trait for all would ask each for its meaning and its place, which is
// all that the impl gives but the number.
pub trait Refused {
    ghost refusal: { Self → Refusal };

    fn number(&self) -> u32
        ensures { result ≡ (refusal self.now).number };

    fn values(&self) -> Values
        ensures { listed result ≡ (refusal self.now).values };
}
