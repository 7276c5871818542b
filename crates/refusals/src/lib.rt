#![tactic(auto)]
// Every refusal, named by what is wrong. specs/Refusals.antt gives each its number and its values.
pub mod aquifer;
pub mod basin;
pub mod day;
pub mod layer;
pub mod log;
pub mod normal_year;
pub mod profile;
pub mod reach;
pub mod refused;
pub mod site;
pub mod snowpack;
pub mod store;
pub mod surface;
pub mod table;
pub mod values;
pub mod weather;
