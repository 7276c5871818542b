#![tactic(auto)]
// A store and a source that nobody in the library named, and the laws at them.
pub mod half;
pub mod laws;
pub mod steady;
mod trial;
