#![tactic(auto)]

// The figures and rules of the reserve market that every later step rests on.
pub mod bands;
pub mod checks;
pub mod classes;
pub mod entries;
pub mod figures;
pub mod landing;
pub mod maxima;
pub mod ranking;
pub mod refusals;
pub mod sharing;
pub mod tiers;
