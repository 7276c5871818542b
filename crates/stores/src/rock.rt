// A bottom that holds nothing: all inflow leaves sideways.
ghost use Rattle.std.specs.Prelude.{◌≡◌};
ghost use Rattle.stores.specs.Groundwater.{rock_gives};
ghost use Rattle.std.proofs.Common.{rules};

use crate::flows::Flows;
use crate::store::{LIMIT, Store};
use refusals::store::Overfull;
use weather::day::Day;

#[derive(Clone, Copy, Debug, PartialEq, Eq)]
pub struct Rock;

impl Store for Rock {
    ghost water = { λ _. 0 };

    ghost root = { λ _. 0 };

    ghost turns = { λ s i d w t f. f ≡ rock_gives i };

    ghost root_within = { Prim.search rules };

    fn turn(&mut self, inflow: u32, _demand: u32, _day: &Day) -> Result<Flows, Overfull> {
        if inflow > LIMIT {
            return Err(Overfull);
        }
        Ok(Flows {
            side: inflow,
            vapour: 0,
            deep: 0,
        })
    }

    fn water(&self) -> Result<u32, Overfull> {
        Ok(0)
    }

    fn root_water(&self) -> Result<u32, Overfull> {
        self.water()
    }
}
