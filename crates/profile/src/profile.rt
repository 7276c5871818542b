// Layers of soil over another store.
ghost use Rattle.std.specs.Prelude.{◌≡◌};
ghost use Rattle.profile.specs.Soils.{Added, empty_soil};

use crate::layer::Layer;
use crate::soil::Soil;
use refusals::profile::ProfileFull;

#[derive(Clone, Copy, Debug, PartialEq, Eq)]
pub struct Profile<L> {
    pub soil: Soil,
    pub lower: L,
}

impl<L> Profile<L> {
    // A profile without layers yet.
    pub fn new(lower: L) -> Profile<L>
        ensures layers { result.soil ≡ empty_soil }
        ensures under { result.lower ≡ lower }
    {
        Profile {
            soil: Soil::empty(),
            lower,
        }
    }

    // A layer more at the bottom of the soil, unless there are ten.
    pub fn add(&mut self, layer: Layer) -> Result<(), ProfileFull>
        ensures layers { Added self.old.soil layer self.new.soil result }
        ensures under { self.new.lower ≡ self.old.lower }
    {
        self.soil.add(layer)
    }
}
