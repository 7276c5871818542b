// One day of a basin, and days one after another.
ghost use Rattle.std.specs.Prelude.{◌≡◌, ℕ, ◌+◌, ◌<◌, ◌≤◌, length, Ok, slice_index_or};
ghost use Rattle.std.specs.Result.{result_err};
ghost use Rattle.network.specs.Records.{flow0};
ghost use Rattle.basin.specs.Tables.{sites_of, state_of};
ghost use Rattle.basin.specs.Day.{Today};
ghost use Rattle.basin.specs.Limits.{most};
ghost use Rattle.basin.specs.Loops.{AcceptedIn, Blank, Counted, EachAtMost, SoundTables, places, readings_before};
ghost use Rattle.basin.specs.Run.{ReadingsWithin, Ends, Going, nothing};

use crate::answer::Answer;
use crate::limits::rain_fallen;
use crate::questions::ask;
use crate::routing::{gather, route};
use crate::sums::{add_all, day_sums};
use crate::tables::Tables;
use crate::units::turn_units;
use network::flows::{NO_REACH_FLOW, NO_UNIT_FLOW, ReachFlow, UnitFlow};
use refusals::basin::BasinFault;
use stores::store::Store;
use weather::day::Day;
use weather::source::WeatherSource;

// What stands in a day's table of weather before the source is asked.
const CLEAR_DAY: Day = Day {
    date: 1,
    rain: 0,
    highest: 0,
    lowest: 0,
    demand: 0,
};

// What a source told of a day: the weather of each site, and the demand at each reach.
// Both tables are lent, since a struct that holds them is copied as it is made.
#[derive(Drop)]
struct Told<'a> {
    weather: &'a mut [Day; 1024],
    demands: &'a mut [u32; 256],
}

impl<S: Store> Tables<S> {
    // The questions of a day, and then the limits with its rain.
    fn accept<W: WeatherSource>(
        &self,
        source: &W,
        index: u64,
        weather: &mut [Day; 1024],
        demands: &mut [u32; 256],
        readings: &mut u64,
    ) -> Result<(), BasinFault>
        requires sound { SoundTables self.now }
        requires few { readings.old ≤ readings_before }
        ensures accepted { AcceptedIn S.Store.water (W.WeatherSource.means source.now) index self.now weather.new demands.new result }
        ensures counted { Counted (places self.now) readings.old readings.new result }
    {
        let weather = &mut weather[..self.sites.len()];
        ask(source, index, &self.sites, weather, readings)?;
        let demands = &mut demands[..self.reaches.len()];
        ask(source, index, &self.reaches, demands, readings)?;
        self.check_limits(weather, rain_fallen(&self.sites, weather))?;
        Ok(())
    }
}

impl<S: Store + Copy> Tables<S> {
    // One day: nothing turns before the last question is answered and the limits are tested.
    // The day's lists and the count stay apart from what is told: two fields behind one `&mut` are not lent at once (tried).
    fn day<W: WeatherSource>(
        &mut self,
        source: &W,
        index: u64,
        told: Told<'_>,
        unit_day: &mut [UnitFlow],
        reach_day: &mut [ReachFlow],
        readings: &mut u64,
    ) -> Result<(), BasinFault>
        requires sound { SoundTables self.old }
        requires unit_list { length unit_day.old ≡ length self.old.sites.items }
        requires reach_list { length reach_day.old ≡ length self.old.reaches.items }
        requires few { readings.old ≤ readings_before }
        ensures sites { self.new.sites ≡ self.old.sites }
        ensures today { Today S.Store.water S.Store.turns (W.WeatherSource.means source.now) index (sites_of self.old) (state_of self.old) (state_of self.new) (record { units = unit_day.new; reaches = reach_day.new }) result }
        ensures small { result ≡ Ok tt → EachAtMost most reach_day.new }
        ensures counted { Counted (places self.old) readings.old readings.new result }
    {
        let Told { weather, demands } = told;
        self.accept(source, index, weather, demands, readings)?;
        turn_units(&mut self.units, &weather[..self.sites.len()], unit_day);
        gather(&self.sites, unit_day, reach_day);
        let demands = &demands[..self.reaches.len()];
        route(&mut self.reaches, demands, reach_day);
        Ok(())
    }

    // At most n days from the index `from` on, added up in the answer and in the flow lists.
    // The flow lists are the caller's two: a struct of two `&mut` is not lent in parts (tried).
    pub fn run_days<W: WeatherSource>(
        &mut self,
        source: &W,
        from: u64,
        n: u64,
        unit_flows: &mut [UnitFlow],
        reach_flows: &mut [ReachFlow],
        answer: &mut Answer,
    ) -> Result<(), BasinFault>
        requires sound { SoundTables self.old }
        requires blank { Blank self.old unit_flows.old reach_flows.old }
        requires few { n ≤ 3660 }
        requires early { from ≤ 4294967295 }
        requires no_days { answer.old.days ≡ 0 }
        requires no_readings { answer.old.readings ≡ 0 }
        requires no_sums { answer.old.sums ≡ nothing }
        ensures sites { self.new.sites ≡ self.old.sites }
        ensures going { Going S.Store.water S.Store.turns (W.WeatherSource.means source.now) from (sites_of self.old) (state_of self.old) (state_of self.new) unit_flows.new reach_flows.new answer.new.days answer.new.sums }
        ensures ends { Ends S.Store.water (W.WeatherSource.means source.now) from n (sites_of self.old) (state_of self.new) answer.new.days (result_err result) }
        ensures asked { ReadingsWithin (places self.old) answer.new.days answer.new.readings }
        ensures start { answer.new.start ≡ answer.old.start }
    {
        // Nothing is told yet. Tables of the greatest size: a run has no heap, so that it cannot run out of one.
        let mut weather = [CLEAR_DAY; 1024];
        let mut demands = [0; 256];
        let mut unit_day = [NO_UNIT_FLOW; 1024];
        let mut reach_day = [NO_REACH_FLOW; 256];
        let unit_day = &mut unit_day[..self.sites.len()];
        let reach_day = &mut reach_day[..self.reaches.len()];
        // Days are counted, there is no list of them.
        for d in 0..n {
            self.day(
                source,
                from + d,
                Told {
                    weather: &mut weather,
                    demands: &mut demands,
                },
                unit_day,
                reach_day,
                &mut answer.readings,
            )?;
            answer.days += 1;
            answer.sums = answer.sums + day_sums(&self.sites, &self.reaches, unit_day, reach_day);
            add_all(unit_flows, unit_day);
            add_all(reach_flows, reach_day);
        }
        Ok(())
    }
}
