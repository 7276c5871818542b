// A run over the tables of a basin.
ghost use Rattle.std.specs.Prelude.{◌≡◌, ◌+◌, ◌≤◌};
ghost use Rattle.basin.specs.Limits.{limit_fault, no_rain};
ghost use Rattle.basin.specs.Loops.{Blank, RanBy, SoundTables};
ghost use Rattle.basin.specs.Run.{only_stop};
ghost use Rattle.basin.specs.Tables.{sites_of, state_of};

use crate::answer::Answer;
use crate::tables::Tables;
use network::flows::{ReachFlow, UnitFlow};
use refusals::basin::BasinFault;
use stores::store::Store;
use weather::source::WeatherSource;

// A run refused at its start.
pub fn only_stop(fault: BasinFault) -> Answer
    ensures { result ≡ only_stop fault }
{
    Answer {
        stop: Some(fault),
        ..Answer::default()
    }
}

impl<S: Store + Copy> Tables<S> {
    // At most n days from the index `from` on, unless a limit is passed before the first.
    pub fn run<W: WeatherSource>(
        &mut self,
        source: &W,
        from: u32,
        n: u64,
        unit_flows: &mut [UnitFlow],
        reach_flows: &mut [ReachFlow],
    ) -> Answer
        requires sound { SoundTables self.old }
        requires blank { Blank self.old unit_flows.old reach_flows.old }
        requires few { n ≤ 3660 }
        ensures sites { self.new.sites ≡ self.old.sites }
        ensures ran { RanBy (limit_fault S.Store.water no_rain 0 (sites_of self.old) (state_of self.old)) S.Store.water S.Store.turns (W.WeatherSource.means source.now) from n (sites_of self.old) (state_of self.old) (state_of self.new) unit_flows.old unit_flows.new reach_flows.old reach_flows.new result }
        ensures counted { from + result.days ≤ 4294967295 }
    {
        // A limit that is passed at the start ends the run with an answer: it is no error.
        let start = match self.check_limits(&[], 0) {
            Ok(water) => water,
            Err(fault) => return only_stop(fault),
        };
        let mut answer = Answer {
            start,
            ..Answer::default()
        };
        answer.stop = self
            .run_days(source, from as u64, n, unit_flows, reach_flows, &mut answer)
            .err();
        // Accepted days keep the limits.
        answer.end = self.check_limits(&[], 0).unwrap();
        answer
    }
}
