// A basin, and the three calls that get at its tables.
ghost use Rattle.std.specs.Prelude.{◌≡◌, ℕ, ◌+◌, ◌-◌, ◌<◌, List, ◌∷◌, length, None, slice_index_or};
ghost use Rattle.network.specs.Records.{flow0, unit0};
ghost use Rattle.basin.specs.Tables.{View, refused_by};
ghost use Rattle.basin.specs.Calls.{Call, Holding, History, RunBy, Step, amount_fault, draw, draw_fault, filled, pour, pour_fault, run, run_fault, start_fault, stored_in, view};
ghost use Rattle.basin.specs.Law.{Balanced};

use crate::answer::Answer;
use crate::run::only_stop;
use crate::tables::{Tables, check_tables};
use network::flows::{NO_REACH_FLOW, NO_UNIT_FLOW, ReachFlow, UnitFlow};
use network::reach::Reach;
use network::site::Site;
use refusals::basin::BasinFault;
use stores::store::Store;
use weather::source::WeatherSource;

// The most days of a run, and the most that a pour adds or a draw takes, in millilitres.
pub const DAYS: u64 = 3660;

const AMOUNT: u64 = 1_000_000_000_000_000;

#[derive(Drop)]
pub struct Basin<S> {
    tables: Tables<S>,
    // Days accepted so far: the index at which the next run reads its source.
    day: u32,
}

impl<S: Store + Copy> Basin<S> {
    // A new basin, however filled: every call tests its tables.
    pub fn new(sites: Vec<Site>, units: Vec<S>, reaches: Vec<Reach>) -> Basin<S>
        ensures { view result ≡ record { sites = sites.items; state = record { units = units.items; reaches = reaches.items }; day = 0 } }
    {
        Basin {
            tables: Tables {
                sites,
                units,
                reaches,
            },
            day: 0,
        }
    }

    pub fn units(&self) -> &[S]
        ensures { result.now ≡ (view self.now).state.units }
    {
        &self.tables.units
    }

    pub fn reaches(&self) -> &[Reach]
        ensures { result.now ≡ (view self.now).state.reaches }
    {
        &self.tables.reaches
    }

    // Days accepted so far.
    pub fn day_count(&self) -> u64
        ensures { result ≡ (view self.now).day }
    {
        self.day as u64
    }

    // The tests of a run before its first day: the tables, the lengths of the flow lists, and the number of days.
    fn check_run(&self, unit_flows: usize, reach_flows: usize, n: u64) -> Result<(), BasinFault>
        ensures { refused_by result ≡ run_fault (view self.now) unit_flows reach_flows n }
    {
        let tables = &self.tables;
        let fit = tables.lengths_fit()
            && unit_flows == tables.sites.len()
            && reach_flows == tables.reaches.len();
        check_tables(fit, &tables.sites, &tables.reaches)?;
        if n > DAYS {
            return Err(BasinFault::Amount);
        }
        Ok(())
    }

    // A run that passed those tests, with cleared flow lists: its days join the day count.
    fn advance<W: WeatherSource>(
        &mut self,
        source: &W,
        n: u64,
        unit_flows: &mut [UnitFlow],
        reach_flows: &mut [ReachFlow],
    ) -> Answer
        requires passed { run_fault (view self.old) (length unit_flows.old) (length reach_flows.old) n ≡ None }
        requires unit_zeros { (k : ℕ) → k < length unit_flows.old → slice_index_or unit_flows.old k unit0 ≡ unit0 }
        requires reach_zeros { (k : ℕ) → k < length reach_flows.old → slice_index_or reach_flows.old k flow0 ≡ flow0 }
        ensures { RunBy None (start_fault S.Store.water (view self.old)) S.Store.water S.Store.turns (W.WeatherSource.means source.now) n unit_flows.old unit_flows.new reach_flows.old reach_flows.new result (view self.old) (view self.new) }
    {
        let from = self.day;
        let answer = self.tables.run(source, from, n, unit_flows, reach_flows);
        self.day = from + answer.days as u32;
        answer
    }

    // Takes the basin through at most n days of a source, and writes what flowed into both flow lists.
    pub fn run<W: WeatherSource>(
        &mut self,
        source: &W,
        n: u64,
        unit_flows: &mut [UnitFlow],
        reach_flows: &mut [ReachFlow],
    ) -> Answer
        ensures step { Step S.Store.water S.Store.turns (view self.old) (run (W.WeatherSource.means source.now) n unit_flows.old reach_flows.old unit_flows.new reach_flows.new result) (view self.new) }
        ensures balance { (a : View S) (cs : List Call) → History S.Store.water S.Store.turns a cs (view self.old) → Balanced S.Store.water a (run (W.WeatherSource.means source.now) n unit_flows.old reach_flows.old unit_flows.new reach_flows.new result ∷ cs) (view self.new) }
    {
        // A run answers, it does not fail.
        if let Err(fault) = self.check_run(unit_flows.len(), reach_flows.len(), n) {
            return only_stop(fault);
        }
        unit_flows.fill(NO_UNIT_FLOW);
        reach_flows.fill(NO_REACH_FLOW);
        self.advance(source, n, unit_flows, reach_flows)
    }

    // The tests that a pour and a draw share: the tables, the reach that is named, and the amount.
    fn check_amount(&self, reach: u64, amount: u64) -> Result<(), BasinFault>
        ensures { refused_by result ≡ amount_fault (view self.now) reach amount }
    {
        let tables = &self.tables;
        check_tables(tables.lengths_fit(), &tables.sites, &tables.reaches)?;
        if reach >= tables.reaches.len() as u64 {
            return Err(BasinFault::NoReach(reach));
        }
        if amount > AMOUNT {
            return Err(BasinFault::Amount);
        }
        Ok(())
    }

    // The water that a reach holds after a pour, or the first refusal.
    fn poured(&self, reach: u64, amount: u64) -> Result<u64, BasinFault>
        ensures refused { refused_by result ≡ pour_fault S.Store.water (view self.now) reach amount }
        ensures value { Holding (view self.now) reach (stored_in (view self.now) reach + amount) result }
    {
        self.check_amount(reach, amount)?;
        self.tables.check_limits(&[], amount as u128)?;
        Ok(self.tables.reaches[reach as usize].stored + amount)
    }

    // The water that a reach holds after a draw, or the first refusal. A pour tests the limits, a draw what is stored;
    // what else the two do they share: `check_amount` and `fill`.
    fn drawn(&self, reach: u64, amount: u64) -> Result<u64, BasinFault>
        ensures refused { refused_by result ≡ draw_fault (view self.now) reach amount }
        ensures value { Holding (view self.now) reach (stored_in (view self.now) reach - amount) result }
    {
        self.check_amount(reach, amount)?;
        let stored = self.tables.reaches[reach as usize].stored;
        if amount > stored {
            return Err(BasinFault::Short(reach));
        }
        Ok(stored - amount)
    }

    // Writes the stored water of a reach.
    fn fill(&mut self, reach: u64, stored: u64)
        requires { reach < length (view self.old).state.reaches }
        ensures { view self.new ≡ filled reach stored (view self.old) }
    {
        self.tables.reaches[reach as usize].stored = stored;
    }

    // Adds water to a reach.
    pub fn pour(&mut self, reach: u64, amount: u64) -> Result<(), BasinFault>
        ensures step { Step S.Store.water S.Store.turns (view self.old) (pour reach amount result) (view self.new) }
        ensures balance { (a : View S) (cs : List Call) → History S.Store.water S.Store.turns a cs (view self.old) → Balanced S.Store.water a (pour reach amount result ∷ cs) (view self.new) }
    {
        let stored = self.poured(reach, amount)?;
        self.fill(reach, stored);
        Ok(())
    }

    // Takes water from a reach.
    pub fn draw(&mut self, reach: u64, amount: u64) -> Result<(), BasinFault>
        ensures step { Step S.Store.water S.Store.turns (view self.old) (draw reach amount result) (view self.new) }
        ensures balance { (a : View S) (cs : List Call) → History S.Store.water S.Store.turns a cs (view self.old) → Balanced S.Store.water a (draw reach amount result ∷ cs) (view self.new) }
    {
        let stored = self.drawn(reach, amount)?;
        self.fill(reach, stored);
        Ok(())
    }
}
