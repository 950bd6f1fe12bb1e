// The figures of the market, each with the range that the rules give it.
// Quantities are whole tenths (0.1 MW), prices whole fen per MWh, offers at the sending end whole yuan per MWh.
ghost use Rattle.std.specs.Prelude.{◌≡◌, ◌+◌, ◌<◌, ◌≤◌, MatchResult};
ghost use Rattle.market.specs.Maxima.{max_figure, max_offer, max_tariff, max_price};

use super::refusals::OutOfRange;

// A number from 0 to the last one that there is.
#[derive(Clone, Copy, PartialEq, Eq, PartialOrd, Ord, Debug)]
pub struct Numbered<const LAST: u8> {
    pub number: u8,
    ghost ok: { number < LAST + 1 },
}

// A generating unit, 0 to 63.
pub type Unit = Numbered<63>;

// A provincial grid, 0 to 15; 15 is the branch's own dispatch.
pub type Grid = Numbered<15>;

// A place, one output band of one unit: 4 × unit + band, at most 255.
pub type Place = Numbered<255>;

// Out of range is every number above the last.
impl<const LAST: u8> TryFrom<u32> for Numbered<LAST> {
    type Error = OutOfRange;

    ghost try_from_gives = { λ n r. MatchResult r (λ x. x.number ≡ n) (λ e. (LAST < n) × (e.name ≡ n)) };

    fn try_from(number: u32) -> Result<Numbered<LAST>, OutOfRange> {
        if number > u32::from(LAST) {
            return Err(OutOfRange { name: number });
        }
        Ok(Numbered {
            number: number as u8,
        })
    }
}

// A unit's five figures at one point, in tenths. Together the last four keep within the first.
#[derive(Clone, Copy, PartialEq, Eq, Debug)]
pub struct UnitFigures {
    pub nameplate: u16,
    pub own_derate: u16,
    pub network_derate: u16,
    pub kept_reserve: u16,
    pub plan: u16,
    ghost small: { nameplate ≤ max_figure },
    ghost fits: { own_derate + network_derate + kept_reserve + plan ≤ nameplate },
}

// Offers, tariffs and bids are types of their own, each with its unit: they must not be confused.

// An offer at the sending end, in yuan per MWh.
#[derive(Clone, Copy, PartialEq, Eq, PartialOrd, Ord, Debug)]
pub struct Offer {
    pub yuan: u16,
    ghost ok: { yuan ≤ max_offer },
}

// A grid's or the branch's transmission tariff, in fen per MWh.
#[derive(Clone, Copy, PartialEq, Eq, PartialOrd, Ord, Debug)]
pub struct Tariff {
    pub fen: u16,
    ghost ok: { fen ≤ max_tariff },
}

// The price that a grid bids, in fen per MWh.
#[derive(Clone, Copy, PartialEq, Eq, PartialOrd, Ord, Debug)]
pub struct BidPrice {
    pub fen: u32,
    ghost ok: { fen ≤ max_price },
}

// What the unit's grid and the branch take on each tenth.
#[derive(Clone, Copy, PartialEq, Eq, Debug)]
pub struct Charges {
    pub grid: Tariff,
    pub branch: Tariff,
}
