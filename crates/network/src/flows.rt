// What flows through a unit and through a reach, on a day or over a run.
ghost use Rattle.std.specs.Prelude.{◌≡◌};
ghost use Rattle.network.specs.Flows.{ReachesFit, UnitsFit, reach_plus, unit_plus};

use std::ops::Add;

// In micrometres over the unit. It shares no type with the record of a reach: other figures, in another unit.
#[derive(Clone, Copy, Debug, PartialEq, Eq, Default)]
pub struct UnitFlow {
    pub rain: u64,
    pub side: u64,
    pub vapour: u64,
    pub deep: u64,
}

// In millilitres.
#[derive(Clone, Copy, Debug, PartialEq, Eq, Default)]
pub struct ReachFlow {
    pub inflow: u128,
    pub outflow: u128,
    pub vapour: u128,
    pub deep: u128,
}

// Nothing flows. Constants, which a list can be made of; `default` is no constant.
pub const NO_UNIT_FLOW: UnitFlow = UnitFlow {
    rain: 0,
    side: 0,
    vapour: 0,
    deep: 0,
};

pub const NO_REACH_FLOW: ReachFlow = ReachFlow {
    inflow: 0,
    outflow: 0,
    vapour: 0,
    deep: 0,
};

// What flows on one day and on another together.
impl Add for UnitFlow {
    type Output = UnitFlow;

    ghost can_add = { UnitsFit };

    ghost add_gives = { λ x y r. r ≡ unit_plus x y };

    fn add(self, more: UnitFlow) -> UnitFlow {
        UnitFlow {
            rain: self.rain + more.rain,
            side: self.side + more.side,
            vapour: self.vapour + more.vapour,
            deep: self.deep + more.deep,
        }
    }
}

impl Add for ReachFlow {
    type Output = ReachFlow;

    ghost can_add = { ReachesFit };

    ghost add_gives = { λ x y r. r ≡ reach_plus x y };

    fn add(self, more: ReachFlow) -> ReachFlow {
        ReachFlow {
            inflow: self.inflow + more.inflow,
            outflow: self.outflow + more.outflow,
            vapour: self.vapour + more.vapour,
            deep: self.deep + more.deep,
        }
    }
}
