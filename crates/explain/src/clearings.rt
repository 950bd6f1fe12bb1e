// The quarter hour cleared, without a screen and under one: for each segment who was in it, what was wanted, what was taken.
use anyhow::bail;
use clearing::points::{Segment, clear};
use grids::GridScreen;
use layers::caps::CapLayer;
use layers::setters::PlaceCaps;
use market::figures::BidPrice;
use market::maxima::MAX_PRICE;
use market::refusals::ScreenRefusal;
use market::tiers::{Bid, Tier};
use outcome::PointEntries;
use quarterhour::{BIDS, RawBid};
use screen::{NodeLimits, OpenScreen, Screen};

// The acceptable bids of the quarter hour, by grid.
fn buyers() -> [Option<Bid>; 16] {
    let mut bids = [None; 16];
    for RawBid { grid, price, need } in BIDS {
        if let Ok(bid) = Bid::checked(grid, price, need) {
            bids[usize::from(bid.grid.number)] = Some(bid);
        }
    }
    bids
}

// The tiers of the quarter hour, by place.
fn sellers(tiers: &[Tier]) -> [Option<Tier>; 256] {
    let mut places = [None; 256];
    for tier in tiers {
        places[usize::from(tier.place.number)] = Some(*tier);
    }
    places
}

// Whether the tier lands within the segment's bid.
fn lands_in(tier: &Tier, segment: &Segment) -> bool {
    tier.landed.within(BidPrice {
        fen: segment.bid.min(MAX_PRICE),
    })
}

// A segment of a cleared point, and the segments before it.
#[derive(Clone, Copy)]
struct Worked<'a> {
    entries: &'a PointEntries,
    awards: &'a [u32; 256],
    before: &'a [Segment],
    segment: &'a Segment,
}

impl Worked<'_> {
    // Whether the bid's grid buys in the segment.
    fn buys(&self, bid: &Bid) -> bool {
        bid.price.fen >= self.segment.bid
    }

    // Whether the tier comes in with the segment: it lands within its bid, and not within the bid before.
    fn sells(&self, tier: &Tier) -> bool {
        let before = self.before.last();
        lands_in(tier, self.segment) && !before.is_some_and(|lower| lands_in(tier, lower))
    }

    // What a bid's grid still needed when the segment began.
    fn needed(&self, bid: &Bid) -> u64 {
        let grid = usize::from(bid.grid.number);
        let got = self
            .before
            .iter()
            .map(|segment| u64::from(segment.shares[grid]))
            .fold(0, u64::saturating_add);
        u64::from(bid.need).saturating_sub(got)
    }

    // What the buyers wanted together.
    fn wanted(&self) -> u64 {
        self.entries
            .bids
            .iter()
            .flatten()
            .filter(|bid| self.buys(bid))
            .map(|bid| self.needed(bid))
            .fold(0, u64::saturating_add)
    }

    // What each buyer still needed and what it got.
    fn show_buyers(&self, rt: &HostRuntime) -> anyhow::Result<()> {
        for bid in self.entries.bids.iter().flatten() {
            if self.buys(bid) {
                let grid = bid.grid.number;
                println!(rt;
                    "    grid {grid}, bidding {}, needed {} and got {}",
                    bid.price.fen,
                    self.needed(bid),
                    self.segment.shares[usize::from(grid)]
                )?;
            }
        }
        Ok(())
    }

    // What each tier took that came in with the segment.
    fn show_takes(&self, rt: &HostRuntime) -> anyhow::Result<()> {
        for tier in self.entries.tiers.iter().flatten() {
            if self.sells(tier) {
                let place = tier.place.number;
                println!(rt;
                    "    place {place}, landed {}, took {} of {}",
                    tier.landed.fen(),
                    self.awards[usize::from(place)],
                    tier.capacity
                )?;
            }
        }
        Ok(())
    }

    // The segment's quantity and price, its tiers and its buyers.
    fn show(&self, rt: &HostRuntime) -> anyhow::Result<()> {
        let Segment {
            bid,
            quantity,
            price,
            ..
        } = *self.segment;
        print!(rt; "  segment up to {bid}: wanted {}, ", self.wanted())?;
        if quantity == 0 {
            println!(rt; "sold nothing, so its price is 0")?;
        } else {
            println!(rt;
                "sold {quantity} at {price}, the landed offer of the last group that took anything"
            )?;
        }
        self.show_takes(rt)?;
        self.show_buyers(rt)
    }
}

// Clears over a screen and tells of each segment.
fn show<S: Screen>(rt: &HostRuntime, entries: &PointEntries, screen: &mut S) -> anyhow::Result<()> {
    let cleared = clear(entries, screen);
    let segments = cleared.segments();
    for (k, segment) in segments.iter().enumerate() {
        let worked = Worked {
            entries,
            awards: &cleared.awards,
            before: &segments[..k],
            segment,
        };
        worked.show(rt)?;
    }
    Ok(())
}

// A cap of 10 at place 30, over a limit of 1,000 on grid 1, on which units 0 and 3 hang.
fn limited() -> Result<CapLayer<GridScreen>, ScreenRefusal> {
    let mut grids = GridScreen::new();
    grids.set_limit(1, 1_000)?;
    grids.hang(0, 1)?;
    grids.hang(3, 1)?;
    let mut screen = CapLayer::over(grids);
    screen.set_cap(30, 10)?;
    Ok(screen)
}

// Clears the quarter hour twice.
pub fn clear_twice(rt: &HostRuntime, tiers: &[Tier]) -> anyhow::Result<()> {
    let entries = PointEntries {
        tiers: sellers(tiers),
        bids: buyers(),
    };
    println!(rt; "")?;
    println!(rt; "Cleared without a screen:")?;
    show(rt, &entries, &mut OpenScreen)?;
    println!(rt; "")?;
    println!(rt; "Cleared with grid 1 limited to 1000 and a cap of 10 at place 30:")?;
    let Ok(mut screen) = limited() else {
        bail!("a setting was declined");
    };
    show(rt, &entries, &mut screen)
}
