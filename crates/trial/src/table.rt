// A basin taken through a weather table in bytes.
ghost use Rattle.basin.specs.Calls.{view};
ghost use Rattle.trial.specs.TableRuns.{OpenOr, TableRunBy, open_fault};

use basin::basin::{Basin, DAYS};
use network::flows::{ReachFlow, UnitFlow};
use refusals::table::TableFault;
use run_log::figures::LogFigures;
use sources::table::WeatherTable;
use stores::store::Store;
use weather::source::WeatherSource;

// The longest table that is read.
const LONGEST: usize = 60_000;

// The table, unless it is too long or the bytes are none.
fn open(bytes: &[u8]) -> Result<WeatherTable<'_>, TableFault>
    ensures { OpenOr bytes.now result }
{
    if bytes.len() > LONGEST {
        return Err(TableFault::Length(bytes.len() as u64));
    }
    WeatherTable::open(bytes)
}

// The table's days, as many as a run takes; where it is not opened, nothing but the refusal's number.
pub fn run_table<S: Store + Copy>(
    basin: &mut Basin<S>,
    bytes: &[u8],
    unit_flows: &mut [UnitFlow],
    reach_flows: &mut [ReachFlow],
) -> LogFigures
    ensures { TableRunBy (open_fault bytes.now) S.Store.water S.Store.turns bytes.now unit_flows.old unit_flows.new reach_flows.old reach_flows.new (view basin.old) (view basin.new) result }
{
    match open(bytes) {
        Ok(table) => {
            let days = table.days().min(DAYS);
            basin.run(&table, days, unit_flows, reach_flows).into()
        }
        Err(fault) => fault.into(),
    }
}
