// A store that keeps half of what comes in, and says no more of its turn than a store must.
ghost use Rattle.strangers.specs.Halves.{half_water};
ghost use Rattle.std.proofs.Common.{rules};

use refusals::store::Overfull;
use stores::flows::Flows;
use stores::store::{LIMIT, Store};
use weather::day::Day;

#[derive(Clone, Copy, Debug, PartialEq, Eq)]
pub struct Half {
    pub water: u32,
}

impl Store for Half {
    ghost water = { half_water };

    ghost root = { half_water };

    ghost root_within = { Prim.search rules };

    fn turn(&mut self, inflow: u32, _demand: u32, _day: &Day) -> Result<Flows, Overfull> {
        if self.water.saturating_add(inflow) > LIMIT {
            return Err(Overfull);
        }
        let side = inflow / 2;
        self.water += inflow - side;
        Ok(Flows {
            side,
            vapour: 0,
            deep: 0,
        })
    }

    fn water(&self) -> Result<u32, Overfull> {
        if self.water > LIMIT {
            return Err(Overfull);
        }
        Ok(self.water)
    }

    // Roots reach all of it.
    fn root_water(&self) -> Result<u32, Overfull> {
        self.water()
    }
}
