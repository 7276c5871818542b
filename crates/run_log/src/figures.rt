// The figures that a log tells.
#[derive(Clone, Copy, Debug, Default, PartialEq, Eq)]
pub struct LogFigures {
    // How many days were accepted.
    pub days: u64,
    // How many days of weather were read.
    pub readings: u64,
    // What the days moved.
    pub rain: u128,
    pub stream: u128,
    pub vapour: u128,
    pub deep: u128,
    // The water before the first day and after the last.
    pub start: u128,
    pub end: u128,
    // The number of the refusal that stopped the run, or 0, as the log prints it.
    pub stop: u32,
}
