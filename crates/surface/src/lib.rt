#![tactic(auto)]
// The surface: what of an inflow runs off, over any store.
pub mod retention;
pub mod runoff;
pub mod surface;
pub mod surface_turn;
