#![tactic(auto)]

// A sheet loaded onto a running day and its screen, and the strip of tariffs.
mod entries;
pub mod faults;
pub mod sheets;
pub mod strips;
