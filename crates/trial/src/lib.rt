#![tactic(auto)]
// A weather table in bytes run over a basin, and the basin of bare rock on which tables are tried.
pub mod bare;
pub mod table;
