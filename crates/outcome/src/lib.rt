#![tactic(auto)]

// What clearing a point yields, by its entries and what the screen permits; and what that is worth. Types, definitions and laws.
use market::tiers::{Bid, Tier};

// What is entered at a point: the tier at each place and the bid of each grid. The index is the place or the grid.
#[derive(Clone, Copy)]
pub struct PointEntries {
    pub tiers: [Option<Tier>; 256],
    pub bids: [Option<Bid>; 16],
}
