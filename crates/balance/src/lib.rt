#![tactic(auto)]
// The water balance of one column of ground over the days of a weather source.
pub mod agreement;
pub mod balance;
pub mod course;
pub mod lines;
pub mod stop;
pub mod table;
