#![tactic(auto)]
// The river network of a basin: sites, reaches, and the records of what flows.
pub mod channel;
pub mod flows;
pub mod reach;
pub mod site;
pub mod site_new;
