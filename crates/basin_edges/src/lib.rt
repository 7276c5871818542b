#![tactic(auto)]
// What the three calls on a basin answer at their limits, and every refusal by its number and values.
mod amounts;
mod answers;
mod days;
mod starts;
mod stops;
mod tables;
mod valleys;
