#![tactic(auto)]

// Layers over any screen: a cap for each place, and one ceiling on the total.
// A layer holds the screen below it by value and cuts both of its sets of awards.
pub mod caps;
pub mod ceiling;
pub mod cut;
pub mod layer;
pub mod setters;
