// The two sides of a point: what units offer, tier by tier, and what grids bid.
ghost use Rattle.std.specs.Prelude.{◌≤◌};
ghost use Rattle.market.specs.Maxima.{max_figure, max_need};

use super::classes::Class;
use super::figures::{BidPrice, Grid, Place};
use super::landing::LandedOffer;

// A tier: a place with its capacity in tenths, at its landed offer.
#[derive(Clone, Copy, PartialEq, Eq, Debug)]
pub struct Tier {
    pub landed: LandedOffer,
    pub class: Class,
    pub place: Place,
    pub capacity: u16,
    ghost small: { capacity ≤ max_figure },
}

// A grid's bid: its price and its need in tenths.
#[derive(Clone, Copy, PartialEq, Eq, Debug)]
pub struct Bid {
    pub price: BidPrice,
    pub grid: Grid,
    pub need: u32,
    ghost small: { need ≤ max_need },
}
