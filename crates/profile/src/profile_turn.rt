// The turn of a profile.
ghost use Rattle.std.specs.Prelude.{◌+◌};
ghost use Rattle.profile.specs.Profiles.{ProfileTurn};
ghost use Rattle.profile.specs.Soils.{soil_water, soil_root, layers_of};
ghost use Rattle.std.proofs.Common.{arith};
ghost use Rattle.profile.specs.Downward.{root_le};

use crate::profile::Profile;
use refusals::store::Overfull;
use stores::flows::Flows;
use stores::room::room;
use stores::store::Store;
use weather::day::Day;

impl<L: Store> Store for Profile<L> {
    ghost water = { λ s. soil_water s.soil + L.Store.water s.lower };

    ghost root = { λ s. soil_root s.soil };

    ghost turns = { λ s i d w t f. ProfileTurn L.Store.turns s.soil s.lower i d w t.soil t.lower f };

    ghost root_within = { λ s. omega (arith, root_le (layers_of s.soil)) };

    fn turn(&mut self, inflow: u32, demand: u32, day: &Day) -> Result<Flows, Overfull> {
        let lower = self.lower.water()?;
        room(self.soil.water(), lower, inflow)?;
        let passed = self.soil.turn(inflow, demand);
        let below = self.lower.turn(passed.seepage, passed.demand, day)?;
        Ok(Flows {
            side: passed.side + below.side,
            vapour: passed.vapour + below.vapour,
            deep: below.deep,
        })
    }

    fn water(&self) -> Result<u32, Overfull> {
        let lower = self.lower.water()?;
        room(self.soil.water(), lower, 0)
    }

    fn root_water(&self) -> Result<u32, Overfull> {
        self.water()?;
        Ok(self.soil.root_water() as u32)
    }
}
