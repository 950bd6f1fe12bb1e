// Checks of what is handed over, by its own figures, and the tiers of an accepted offer.
ghost use Rattle.std.specs.Prelude.{◌≡◌, ◌<◌, ◌≤◌, Bool, true, false, not, ◌||◌, IfOk, MatchOption, MatchResult, ℕ, length, ◌==◌};
ghost use Rattle.std.specs.List.{list_all};
ghost use Rattle.market.specs.Maxima.{place_count, max_figure, max_offer};
ghost use Rattle.market.specs.Rows.{topmost};
ghost use Rattle.market.specs.Bands.{scheme_of, figures_of};
ghost use Rattle.market.specs.Entries.{any_above, figures_in, listed, exceeds_nameplate, keeps_bands, offer_rows, handed_over, bid_rows, tariff_rows, market_answer, capacity_in, TierOf};

use super::classes::Class;
use super::entries::{RawOffer, UnitOffer};
use super::figures::{BidPrice, Charges, Grid, Offer, Place, Tariff, Unit, UnitFigures};
use super::maxima::{
    BRANCH_DISPATCH, GRIDS, MAX_FIGURE, MAX_NEED, MAX_OFFER, MAX_PRICE, MAX_TARIFF,
};
use super::refusals::MarketRefusal;
use super::tiers::{Bid, Tier};

// Whether some figure is above the maximum.
fn any_above(maximum: u32, figures: &[u32]) -> bool
    ensures { result ≡ any_above maximum figures.now }
{
    figures.iter().any(|figure| *figure > maximum)
}

// Whether all offers are 0.
fn all_zero(offers: &[u32]) -> bool
    ensures { result ≡ list_all (λ o. o == 0) offers.now }
{
    offers.iter().all(|offer| *offer == 0)
}

// Whether offers rise over the bands and are 0 behind them.
fn keeps_bands(bands: usize, offers: &[u32]) -> bool
    requires { bands ≤ length offers.now }
    ensures { result ≡ keeps_bands bands 0 offers.now }
{
    offers[..bands].is_sorted() && all_zero(&offers[bands..])
}

impl Offer {
    // An offer of so many yuan that is known to be within the maximum.
    fn of(yuan: u32) -> Offer
        requires { yuan ≤ max_offer }
        ensures { result.yuan ≡ yuan }
    {
        Offer { yuan: yuan as u16 }
    }
}

impl RawOffer {
    // Whether a figure or an offer is above its maximum.
    fn above_maximum(&self) -> bool
        ensures { result ≡ (any_above max_figure (listed (figures_in self.now)) || any_above max_offer self.now.offers) }
    {
        let figures = [
            self.nameplate,
            self.own_derate,
            self.network_derate,
            self.kept_reserve,
            self.plan,
        ];
        any_above(MAX_FIGURE, &figures) || any_above(MAX_OFFER, &self.offers)
    }

    // Whether derates, reserve and plan exceed the nameplate, where no figure is above its maximum.
    fn exceeds_nameplate(&self) -> bool
        requires { any_above max_figure (listed (figures_in self.now)) ≡ false }
        ensures { result ≡ exceeds_nameplate (figures_in self.now) }
    {
        self.nameplate < self.own_derate + self.network_derate + self.kept_reserve + self.plan
    }
}

impl UnitFigures {
    // The five figures of an offer that are known to be in order.
    fn of(raw: &RawOffer) -> UnitFigures
        requires small { any_above max_figure (listed (figures_in raw.now)) ≡ false }
        requires fits { exceeds_nameplate (figures_in raw.now) ≡ false }
        ensures { figures_of result ≡ figures_in raw.now }
    {
        UnitFigures {
            nameplate: raw.nameplate as u16,
            own_derate: raw.own_derate as u16,
            network_derate: raw.network_derate as u16,
            kept_reserve: raw.kept_reserve as u16,
            plan: raw.plan as u16,
        }
    }
}

impl UnitOffer {
    // A function like those of bids and tariffs, which take several figures, and no `TryFrom`.
    // Checks an offer by its own figures: numbers in range, figures within their maxima, headroom, offers that rise over the
    // bands. Accepted, it holds exactly what was handed over.
    pub fn checked(raw: &RawOffer) -> Result<UnitOffer, MarketRefusal>
        ensures answer { market_answer result ≡ topmost (offer_rows raw.now) }
        ensures entered { IfOk result (λ o. handed_over o ≡ raw.now) }
    {
        let unit = Unit::try_from(raw.unit)?;
        let grid = Grid::try_from(raw.grid)?;
        let class = Class::try_from(raw.class)?;
        if raw.above_maximum() {
            return Err(MarketRefusal::AboveMaximum { name: raw.unit });
        }
        if raw.exceeds_nameplate() {
            return Err(MarketRefusal::NoHeadroom { unit: raw.unit });
        }
        if !keeps_bands(class.band_count(), &raw.offers) {
            return Err(MarketRefusal::OffersFall { unit: raw.unit });
        }
        let [a, b, c, d] = raw.offers;
        Ok(UnitOffer {
            unit,
            grid,
            class,
            figures: UnitFigures::of(raw),
            offers: [Offer::of(a), Offer::of(b), Offer::of(c), Offer::of(d)],
        })
    }
}

impl UnitOffer {
    // The tier in a band: the place with its capacity at its landed offer; none where the capacity is 0.
    pub fn tier(&self, band: usize, charges: Charges) -> Option<Tier>
        ensures tier { MatchOption result (capacity_in self.now band ≡ 0) (λ t. TierOf self.now charges band t) }
        ensures places { (n : ℕ) (r : _) → ⟦<Place as TryFrom<u32>>⟧.try_from_gives n r → MatchResult r (λ p. (p.number ≡ n) × (n < place_count)) (λ e. place_count ≤ n) }
    {
        let capacity = self.class.capacity(&self.figures, band);
        if capacity == 0 || band > 3 {
            return None;
        }
        Some(Tier {
            landed: self.offers[band].land(charges),
            class: self.class,
            place: Place {
                number: 4 * self.unit.number + band as u8,
            },
            capacity,
        })
    }
}

impl Bid {
    // Checks a bid by its own figures: the grid in range, price and need within their maxima.
    pub fn checked(grid: u32, price: u32, need: u32) -> Result<Bid, MarketRefusal>
        ensures answer { market_answer result ≡ topmost (bid_rows grid price need) }
        ensures entered { IfOk result (λ b. (b.grid.number ≡ grid) × (b.price.fen ≡ price) × (b.need ≡ need)) }
    {
        let buyer = Grid::try_from(grid)?;
        if price > MAX_PRICE || need > MAX_NEED {
            return Err(MarketRefusal::AboveMaximum { name: grid });
        }
        Ok(Bid {
            price: BidPrice { fen: price },
            grid: buyer,
            need,
        })
    }
}

impl Tariff {
    // Checks the tariff of a grid, or with 16 the branch's: in range, within the maximum, and 0 for the branch's own dispatch.
    pub fn checked(grid: u32, fen: u32) -> Result<Tariff, MarketRefusal>
        ensures answer { market_answer result ≡ topmost (tariff_rows grid fen) }
        ensures entered { IfOk result (λ t. t.fen ≡ fen) }
    {
        if grid > GRIDS {
            return Err(MarketRefusal::OutOfRange { name: grid });
        }
        if fen > MAX_TARIFF || grid == BRANCH_DISPATCH && fen != 0 {
            return Err(MarketRefusal::AboveMaximum { name: grid });
        }
        Ok(Tariff { fen: fen as u16 })
    }
}
