#![tactic(auto)]
// Fixed-point arithmetic of the water balance: shares and the two curves.
pub mod decay;
pub mod limits;
pub mod moisture;
pub mod shape;
pub mod share;
