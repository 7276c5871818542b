// The figures of a column's balance, in micrometres.
use refusals::store::Overfull;
use refusals::table::TableFault;
use refusals::weather::WeatherFault;
use stores::flows::Flows;

// What one accepted day moved.
#[derive(Clone, Copy, Debug, PartialEq, Eq)]
pub struct Moved {
    pub rain: u32,
    pub flows: Flows,
}

// What the accepted days moved together. No record of a basin's unit: a balance knows no basin.
#[derive(Clone, Copy, Debug, Default, PartialEq, Eq)]
pub struct Sums {
    pub rain: u64,
    pub side: u64,
    pub vapour: u64,
    pub deep: u64,
}

// Why a balance stops before the last day.
#[derive(Clone, Copy, Debug, PartialEq, Eq)]
pub enum Stop {
    Table(TableFault),
    Weather(WeatherFault),
    Store(Overfull),
}

#[derive(Clone, Copy, Debug, Default, PartialEq, Eq)]
pub struct Balance {
    // How many days were accepted.
    pub days: u64,
    pub sums: Sums,
    // The column's water before and after.
    pub start: u64,
    pub end: u64,
    pub stop: Option<Stop>,
}
