// What a running day can be asked.
ghost use Rattle.std.specs.Prelude.{◌≡◌, ◌==◌, option_copied, option_map};
ghost use Rattle.std.specs.List.{find};
ghost use Rattle.book.specs.Reads.{award_read, share_read, quantity_read, price_read};
ghost use Rattle.day.specs.Day.{shown, stage_read, segment_read, RisingRead, LedTo};

use super::RunningDay;
use super::state::PointState;
use clearing::points::{Cleared, Segment};

// The segment at this bid, if there is one.
fn segment_at(segments: &[Segment], bid: u32) -> Option<&Segment>
    ensures { option_copied result ≡ find (λ s. s.bid == bid) segments.now }
{
    segments.iter().find(|segment| segment.bid == bid)
}

impl RunningDay {
    // The points posted so far; the day's point is the next.
    pub fn points_posted(&self) -> u8
        ensures { result ≡ (shown self.now).posted }
    {
        self.posted
    }

    // The accepted offers, withdrawals and bids of the day.
    pub fn entry_count(&self) -> u32
        ensures { result ≡ (shown self.now).entered }
    {
        self.entered
    }

    // All that is declared: absent unless the point is cleared. Its segments rise by bid. A list of calls led to the day.
    pub fn declared(&self) -> Option<Cleared>
        ensures stage { stage_read result ≡ (shown self.now).stage }
        ensures rising { RisingRead result }
        ensures led { LedTo (shown self.now) }
    {
        match self.state {
            PointState::Entering => None,
            PointState::Cleared(cleared) => Some(cleared),
        }
    }

    // The award of a place: absent unless the point is cleared, and out of range; 0 where there is no tier.
    pub fn award(&self, place: u32) -> Option<u32>
        ensures { result ≡ award_read (shown self.now) place }
    {
        match &self.state {
            PointState::Entering => None,
            PointState::Cleared(cleared) => cleared.awards.get(place as usize).copied(),
        }
    }

    // All that a grid got: absent unless the point is cleared, and out of range; 0 without a bid.
    pub fn share(&self, grid: u32) -> Option<u32>
        ensures { result ≡ share_read (shown self.now) grid }
    {
        match &self.state {
            PointState::Entering => None,
            PointState::Cleared(cleared) => cleared.got.get(grid as usize).copied(),
        }
    }

    // The segment at a bid: absent unless the point is cleared, and for a price that nobody bids.
    fn segment(&self, bid: u32) -> Option<&Segment>
        ensures { option_map (λ s. (s.quantity, s.price)) (option_copied result) ≡ segment_read (shown self.now) bid }
    {
        match &self.state {
            PointState::Entering => None,
            PointState::Cleared(cleared) => segment_at(cleared.segments(), bid),
        }
    }

    // The quantity sold in the segment at a bid: absent unless the point is cleared, and for a price that nobody bids.
    pub fn segment_quantity(&self, bid: u32) -> Option<u32>
        ensures { result ≡ quantity_read (shown self.now) bid }
    {
        self.segment(bid).map(|segment| segment.quantity)
    }

    // The price of the segment at a bid: absent unless the point is cleared, and for a price that nobody bids.
    pub fn segment_price(&self, bid: u32) -> Option<u32>
        ensures { result ≡ price_read (shown self.now) bid }
    {
        self.segment(bid).map(|segment| segment.price)
    }
}
