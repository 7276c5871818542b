#![tactic(auto)]
// What holds of every basin, or of every basin whose units have one outcome: theorems on contracts.
pub mod agreement;
pub mod house;
pub mod upstream;
