#![tactic(auto)]
// A basin of sites, units, reaches and a day count, and the three calls on it.
pub mod answer;
pub mod basin;
mod days;
pub mod law;
mod limits;
mod questions;
mod routing;
mod run;
mod sums;
mod tables;
mod units;
