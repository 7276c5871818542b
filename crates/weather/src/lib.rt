#![tactic(auto)]
// A day of weather, and what a source of weather means.
pub mod day;
pub mod day_new;
pub mod source;
