#![tactic(auto)]
// The log of a run: nine lines of a name and a number, written into the caller's buffer.
pub mod answers;
mod cursor;
mod display;
pub mod figures;
mod line;
mod lines;
pub mod write;
