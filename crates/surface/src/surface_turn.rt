// A surface is a store, and has one outcome where the store below has.
ghost use Rattle.surface.specs.Surface.{SurfaceTurn, surface_gives};
ghost use Rattle.std.proofs.Common.{rules};
ghost use Rattle.surface.specs.Same.{surface_single, surface_given};

use crate::surface::Surface;
use refusals::store::Overfull;
use stores::determined::Determined;
use stores::flows::Flows;
use stores::room::room;
use stores::store::Store;
use weather::day::Day;

impl<L: Store> Store for Surface<L> {
    ghost water = { λ s. L.Store.water s.lower };

    ghost root = { λ s. L.Store.root s.lower };

    ghost turns = { λ s i d w t f. SurfaceTurn L.Store.root L.Store.turns s.retention s.lower i d w t.retention t.lower f };

    ghost root_within = { Prim.search rules };

    fn turn(&mut self, inflow: u32, demand: u32, day: &Day) -> Result<Flows, Overfull> {
        let water = self.lower.water()?;
        room(0, water, inflow)?;
        // The roots are read before the day's turn below.
        let root = self.lower.root_water()?;
        let runoff = self.retention.runoff(inflow, root);
        let below = self.lower.turn(inflow - runoff, demand, day)?;
        Ok(Flows {
            side: runoff + below.side,
            vapour: below.vapour,
            deep: below.deep,
        })
    }

    fn water(&self) -> Result<u32, Overfull> {
        self.lower.water()
    }

    fn root_water(&self) -> Result<u32, Overfull> {
        self.lower.root_water()
    }
}

impl<L: Determined> Determined for Surface<L> {
    ghost gives = { λ s i d w. surface_gives L.Store.root L.Determined.gives s.retention s.lower i d w };

    ghost single = { λ s i d w t u f e x y.
        let z = surface_single L.Store.root L.Store.turns L.Determined.single t.retention u.retention t.lower u.lower f e x y in
        (λ j. record { retention = z.0 j; lower = z.1 j }, z.2) };

    ghost given = { λ s i d w t f x. surface_given L.Store.root L.Store.turns L.Determined.gives L.Determined.given t.retention t.lower f x };
}
