// Stores whose turn has exactly one outcome.
ghost use Rattle.std.specs.Prelude.{ℕ};
ghost use Rattle.stores.specs.Groundwater.{aquifer_gives, rock_gives};
ghost use Rattle.stores.specs.Outcome.{Single, Given, OneOutcome};
ghost use Rattle.stores.specs.declared.flows.Flows.{Flows};
ghost use Rattle.weather.specs.declared.day.Day.{Day};
ghost use Rattle.std.proofs.Common.{rules};
ghost use Rattle.stores.specs.Same.{aquifer_single, flows_same};

use crate::aquifer::Aquifer;
use crate::flows::Flows;
use crate::rock::Rock;
use crate::store::Store;
use weather::day::Day;

pub trait Determined: Store {
    // What a turn answers, by store, inflow, demand and day.
    ghost gives: { Self → ℕ → ℕ → Day → Flows };

    ghost single: { Single Self.Store.turns };

    ghost given: { Given Self.Store.turns gives };
}

impl Determined for Rock {
    ghost gives = { λ s i d w. rock_gives i };

    ghost single = { Prim.search rules };

    ghost given = { Prim.search rules };
}

impl Determined for Aquifer {
    ghost gives = { λ s i d w. aquifer_gives s i };

    ghost single = { λ s i d w t u f e x y. aquifer_single t u f e x y };

    ghost given = { λ s i d w t f x. flows_same f (aquifer_gives s i) x.side_is x.vapour_is x.deep_is };
}

// Two turns of one such store end alike, refused or not.
pub fn one_outcome<S: Determined>()
    ensures { OneOutcome S.Store.water S.Store.turns }
{}
