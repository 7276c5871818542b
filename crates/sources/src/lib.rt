#![tactic(auto)]
// Sources of weather: a table of records in bytes, and a normal year.
mod bytes;
mod calendar;
mod header;
pub mod normal_year;
mod normal_year_new;
pub mod normal_year_source;
mod records;
pub mod span;
mod span_dates;
pub mod table;
mod table_open;
pub mod table_source;
