// How an aquifer is made, and its turn.
ghost use Rattle.stores.specs.Groundwater.{AquiferMade, AquiferTurn};
ghost use Rattle.std.proofs.Common.{rules};

use crate::aquifer::Aquifer;
use crate::flows::Flows;
use crate::store::{LIMIT, Store};
use fixed::limits::natural;
use fixed::share::Share;
use refusals::aquifer::AquiferSetting;
use refusals::store::Overfull;
use weather::day::Day;

impl Aquifer {
    // An aquifer of these settings, or the first of them that is outside its limits.
    pub fn new(
        water: i64,
        deep: i64,
        threshold: i64,
        recession: i64,
    ) -> Result<Aquifer, AquiferSetting>
        ensures { AquiferMade water deep threshold recession result }
    {
        let water = natural(water, 0, LIMIT).ok_or(AquiferSetting::GroundWater)?;
        let deep = Share::new(deep).ok_or(AquiferSetting::DeepShare)?;
        let threshold = natural(threshold, 0, LIMIT).ok_or(AquiferSetting::FlowThreshold)?;
        let recession = Share::new(recession).ok_or(AquiferSetting::FlowShare)?;
        Ok(Aquifer {
            water,
            deep,
            threshold,
            recession,
        })
    }
}

impl Store for Aquifer {
    ghost water = { λ s. s.water };

    ghost root = { λ _. 0 };

    ghost turns = { λ s i d w t f. AquiferTurn s i t f };

    ghost root_within = { Prim.search rules };

    fn turn(&mut self, inflow: u32, _demand: u32, _day: &Day) -> Result<Flows, Overfull> {
        if inflow > LIMIT - self.water {
            return Err(Overfull);
        }
        let deep = self.deep.of(inflow as u64) as u32;
        let water = self.water + (inflow - deep);
        let side = if water > self.threshold {
            self.recession.of(water as u64) as u32
        } else {
            0
        };
        self.water = water - side;
        Ok(Flows {
            side,
            vapour: 0,
            deep,
        })
    }

    fn water(&self) -> Result<u32, Overfull> {
        Ok(self.water)
    }

    fn root_water(&self) -> Result<u32, Overfull> {
        Ok(0)
    }
}
