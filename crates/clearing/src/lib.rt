#![tactic(auto)]

// The clearing of a point, over any screen.
mod bids;
mod drawing;
mod groups;
mod levels;
mod needs;
pub mod points;
mod segments;
mod sequence;
