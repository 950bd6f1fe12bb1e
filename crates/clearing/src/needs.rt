// The buyers' side of a segment: what they still need, and what each gets of the quantity taken.
ghost use Rattle.std.specs.Prelude.{◌≡◌, ℕ, ◌+◌, ◌*◌, ◌^◌, ◌<◌, ◌≤◌, None, sum, slice_index, slice_index_or};
ghost use Rattle.market.specs.Maxima.{grid_count, max_need};
ghost use Rattle.market.specs.Sharing.{shares_of};
ghost use Rattle.outcome.specs.Outcome.{claims};
ghost use Rattle.clearing.specs.Awarded.{award_of};
ghost use Rattle.clearing.specs.Sequence.{buyers_of, open_need};

use market::sharing::share_out;
use market::tiers::Bid;
use std::array;

// What a grid still needs in the segment at this bid: nothing where it bids less.
fn open_need(slot: Option<Bid>, got: u32, bid: u32) -> u32
    ensures { result ≡ open_need slot got bid }
{
    match slot {
        Some(buyer) if bid <= buyer.price.fen => buyer.need.saturating_sub(got),
        _ => 0,
    }
}

// The open needs of the buyers of the segment at this bid, by grid.
pub(crate) fn open_needs(bids: &[Option<Bid>; 16], got: &[u32; 16], bid: u32) -> [u32; 16]
    ensures wants { result ≡ claims (buyers_of bids.now) (award_of got.now) bid }
    ensures bound { sum result ≤ grid_count * max_need }
{
    array::from_fn(
        |grid|
            requires { grid < grid_count }
            ensures { result ≡ open_need (slice_index_or bids.entry.now grid None) (slice_index got.entry.now grid) bid }
        { open_need(bids[grid], got[grid], bid) },
    )
}

// The shares of the quantity taken among the buyers, by open need, in grid order.
pub(crate) fn shares_among(taken: u32, wants: &[u32; 16]) -> [u32; 16]
    requires { (taken ≤ sum wants.now) × (sum wants.now < 2 ^ 32) }
    ensures shares { result ≡ shares_of taken wants.now }
    ensures bounded { (g : ℕ) → slice_index result g ≤ slice_index wants.now g }
{
    let mut shares = [0; 16];
    share_out(taken, wants, &mut shares).unwrap();
    shares
}

// What each grid got, with its share of this segment.
pub(crate) fn with_shares(got: &[u32; 16], shares: &[u32; 16]) -> [u32; 16]
    requires fits { (g : ℕ) → slice_index got.now g + slice_index shares.now g < 2 ^ 32 }
    ensures { (g : ℕ) → slice_index result g ≡ slice_index got.now g + slice_index shares.now g }
{
    array::from_fn(|grid| got[grid] + shares[grid])
}
