// A column of ground through the days of a weather source.
ghost use Rattle.std.specs.Prelude.{◌≡◌, ◌+◌, ◌≤◌};
ghost use Rattle.std.specs.Result.{result_err};
ghost use Rattle.balance.specs.Course.{Balanced, Course, DayOf, Ends, Fitting, Going, added, no_sums};
ghost use Rattle.stores.specs.Meaning.{limit};

use crate::balance::{Balance, Moved, Stop, Sums};
use refusals::store::Overfull;
use std::ops::AddAssign;
use stores::store::Store;
use weather::source::WeatherSource;

impl AddAssign<Moved> for Sums {
    ghost can_add_assign = { λ a d. Fitting (added a d) };

    ghost add_assign_gives = { λ a d b. b ≡ added a d };

    // One day more.
    fn add_assign(&mut self, day: Moved) {
        self.rain += day.rain as u64;
        self.side += day.flows.side as u64;
        self.vapour += day.flows.vapour as u64;
        self.deep += day.flows.deep as u64;
    }
}

// One day of the column, at an index of the source.
fn one_day<S: Store, W: WeatherSource>(
    column: &mut S,
    source: &W,
    station: u64,
    index: u64,
) -> Result<Moved, Stop>
    ensures { DayOf S.Store.water S.Store.turns (W.WeatherSource.means source.now) station index column.old column.new result }
{
    let day = source.day(station, index)?;
    let flows = column.turn(day.rain, day.demand, &day)?;
    Ok(Moved {
        rain: day.rain,
        flows,
    })
}

impl Balance {
    // Takes the column through the days of the source, one after another, to the first that is refused.
    fn run<S: Store, W: WeatherSource>(
        &mut self,
        column: &mut S,
        source: &W,
        station: u64,
    ) -> Result<(), Stop>
        requires within { S.Store.water column.old ≤ limit }
        requires no_days { self.old.days ≡ 0 }
        requires no_sums { self.old.sums ≡ no_sums }
        ensures going { Going S.Store.water S.Store.turns (W.WeatherSource.means source.now) station column.old column.new self.new.days self.new.sums }
        ensures ends { Ends S.Store.water (W.WeatherSource.means source.now) station self.new.days column.new (result_err result) }
        ensures start { self.new.start ≡ self.old.start }
        ensures balance { S.Store.water column.new + self.new.sums.side + self.new.sums.vapour + self.new.sums.deep ≡ S.Store.water column.old + self.new.sums.rain }
        ensures room { S.Store.water column.new ≤ limit }
    {
        // A source has no list of its days: each is asked by its index.
        for index in 0..source.days() {
            let moved = one_day(column, source, station, index)?;
            self.sums += moved;
            self.days += 1;
        }
        Ok(())
    }
}

// The balance of a column over the days of a source at a station.
pub fn run_column<S: Store, W: WeatherSource>(column: &mut S, source: &W, station: u64) -> Balance
    ensures course { Course S.Store.water S.Store.turns (W.WeatherSource.means source.now) station column.old column.new result }
    ensures balanced { Balanced result }
{
    // A balance answers, it does not fail; a store has one refusal.
    let Ok(start) = column.water() else {
        return Balance::stopped(Stop::Store(Overfull));
    };
    let mut balance = Balance {
        start: start as u64,
        ..Balance::default()
    };
    balance.stop = balance.run(column, source, station).err();
    // Accepted days leave room.
    balance.end = column.water().unwrap() as u64;
    balance
}
