#![tactic(auto)]
// What every part answers at its limits, and every refusal by its number and values.
mod answers;
mod balances;
mod days;
mod normal_years;
mod settings;
mod tables;
mod turns;
