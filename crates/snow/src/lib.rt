#![tactic(auto)]
// Snow lying on any store.
pub mod pack;
pub mod pack_turn;
pub mod snowpack;
pub mod snowpack_turn;
