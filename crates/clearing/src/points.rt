// A point cleared over any screen, and what that declares.
ghost use Rattle.std.specs.Prelude.{◌≡◌, ◌≤◌, take};
ghost use Rattle.market.specs.Maxima.{grid_count};

pub use super::segments::clear;

// The segment at one bid: the quantity sold, the price, and the share of each grid.
#[derive(Clone, Copy)]
pub struct Segment {
    pub bid: u32,
    pub quantity: u32,
    pub price: u32,
    pub shares: [u32; 16],
}

// What a clearing declares: the award of each place, all that each grid got, and the table of segments, of which the first `count` are filled.
// The rows behind are blank and the whole can be copied, so that a cleared point has one defined value to the last row.
#[derive(Clone, Copy)]
pub struct Cleared {
    pub awards: [u32; 256],
    pub got: [u32; 16],
    pub segments: [Segment; 16],
    pub count: usize,
    pub ghost few: { count ≤ grid_count },
}

impl Cleared {
    // The segments, by rising bid.
    pub fn segments(&self) -> &[Segment]
        ensures { result.now ≡ take self.now.count self.now.segments }
    {
        &self.segments[..self.count]
    }
}
