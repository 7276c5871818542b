#![tactic(auto)]
// The soil profile: up to ten layers of soil over any store.
pub mod descent;
pub mod determined;
pub mod layer;
pub mod layer_new;
pub mod layer_turn;
pub mod profile;
pub mod profile_turn;
pub mod soil;
pub mod soil_turn;
