// The balance of a column over a weather table in bytes.
ghost use Rattle.balance.specs.Course.{Balanced};
ghost use Rattle.balance.specs.Tables.{TableCourse};

use crate::balance::Balance;
use crate::course::run_column;
use sources::table::WeatherTable;
use stores::store::Store;

// The balance over the days of station 0, or nothing but a stop where the bytes are no table.
pub fn run_table<S: Store>(column: &mut S, bytes: &[u8]) -> Balance
    ensures course { TableCourse S.Store.water S.Store.turns bytes.now column.old column.new result }
    ensures balanced { Balanced result }
{
    match WeatherTable::open(bytes) {
        Ok(table) => run_column(column, &table, 0),
        Err(fault) => Balance::stopped(fault.into()),
    }
}
