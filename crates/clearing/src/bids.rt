// The buyers' side of a point: the bids in rising order.
ghost use Rattle.std.specs.Prelude.{◌≡◌, min, length};
ghost use Rattle.std.specs.List.{filter_map, reduce};
ghost use Rattle.market.specs.Maxima.{grid_count};
ghost use Rattle.outcome.specs.View.{entries_of};
ghost use Rattle.clearing.specs.Sequence.{NextBid, price_from};

use market::tiers::Bid;
use outcome::PointEntries;

// The price of a bid that has a need, where it is at or above `from`.
fn price_from(slot: &Option<Bid>, from: u32) -> Option<u32>
    ensures { result ≡ price_from from slot.now }
{
    match slot {
        Some(bid) if 0 < bid.need && from <= bid.price.fen => Some(bid.price.fen),
        _ => None,
    }
}

// The least price at or above `from` that a grid with a need bids in the table, if one does.
fn least_bid(bids: &[Option<Bid>; 16], from: u32) -> Option<u32>
    ensures least { result ≡ reduce min (filter_map (price_from from) bids.now) }
    ensures grids { length bids.now ≡ grid_count }
{
    bids.iter().filter_map(|slot| price_from(slot, from)).min()
}

// The least price at or above `from` that some grid bids, if one does.
pub(crate) fn next_bid(entries: &PointEntries, from: u32) -> Option<u32>
    ensures { NextBid (entries_of entries.now) from result }
{
    least_bid(&entries.bids, from)
}
