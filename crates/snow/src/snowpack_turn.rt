// A snowpack is a store, and has one outcome where the store below has.
ghost use Rattle.std.specs.Prelude.{◌+◌};
ghost use Rattle.snow.specs.Snowpack.{SnowpackTurn, snowpack_gives};
ghost use Rattle.std.proofs.Common.{rules};
ghost use Rattle.snow.specs.Same.{snow_single, snow_given};

use crate::snowpack::Snowpack;
use refusals::store::Overfull;
use stores::determined::Determined;
use stores::flows::Flows;
use stores::room::room;
use stores::store::Store;
use weather::day::Day;

impl<L: Store> Store for Snowpack<L> {
    ghost water = { λ s. s.pack.water + L.Store.water s.lower };

    ghost root = { λ s. L.Store.root s.lower };

    ghost turns = { λ s i d w t f. SnowpackTurn L.Store.turns s.pack s.lower i d w t.pack t.lower f };

    ghost root_within = { Prim.search rules };

    fn turn(&mut self, inflow: u32, demand: u32, day: &Day) -> Result<Flows, Overfull> {
        let lower = self.lower.water()?;
        room(self.pack.water as u64, lower, inflow)?;
        let passed = self.pack.turn(inflow, demand, day);
        let below = self.lower.turn(passed.below, demand - passed.vapour, day)?;
        Ok(Flows {
            side: below.side,
            vapour: passed.vapour + below.vapour,
            deep: below.deep,
        })
    }

    fn water(&self) -> Result<u32, Overfull> {
        let lower = self.lower.water()?;
        room(self.pack.water as u64, lower, 0)
    }

    fn root_water(&self) -> Result<u32, Overfull> {
        self.water()?;
        self.lower.root_water()
    }
}

impl<L: Determined> Determined for Snowpack<L> {
    ghost gives = { λ s i d w. snowpack_gives L.Determined.gives s.pack s.lower i d w };

    ghost single = { λ s i d w t u f e x y.
        let z = snow_single L.Store.turns L.Determined.single t.pack u.pack t.lower u.lower f e x y in
        (λ j. record { pack = z.0 j; lower = z.1 j }, z.2) };

    ghost given = { λ s i d w t f x. snow_given L.Store.turns L.Determined.gives L.Determined.given t.pack t.lower f x };
}
