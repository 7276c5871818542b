#![tactic(auto)]
// What a store of water means, and the two bottoms: aquifer and rock.
pub mod aquifer;
pub mod aquifer_turn;
pub mod determined;
pub mod flows;
pub mod rock;
pub mod room;
pub mod store;
