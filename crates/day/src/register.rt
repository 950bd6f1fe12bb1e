// The register of a day: its tariffs, and the offers and bids of its point.
ghost use Rattle.std.specs.Prelude.{◌≡◌, ◌<◌, length, is_some, Some, None, slice_index_or};
ghost use Rattle.market.specs.Entries.{handed_over};
ghost use Rattle.market.specs.Maxima.{unit_count, grid_count};
ghost use Rattle.outcome.specs.Entries.{any_below};
ghost use Rattle.outcome.specs.Outcome.{at};
ghost use Rattle.outcome.specs.View.{entries_of};
ghost use Rattle.book.specs.Histories.{asked};
ghost use Rattle.book.specs.Tables.{offered_on};
ghost use Rattle.book.specs.Views.{entries_in};
ghost use Rattle.day.specs.Shown.{tariff_at, offered, offers_of, bids_of, point_of, SameEntries};
ghost use Rattle.day.specs.Tiers.{TierAt};

use market::entries::UnitOffer;
use market::figures::{Charges, Grid, Tariff, Unit};
use market::tiers::{Bid, Tier};
use outcome::PointEntries;

// Tariffs by grid, with the branch's at 16; offers by unit; bids by grid. Tables of fixed length, since no call of a day may need memory.
// The tariffs are one table, since one call sets any of them by its number, 16 for the branch.
#[derive(Clone, Copy)]
pub struct Register {
    tariffs: [Tariff; 17],
    offers: [Option<UnitOffer>; 64],
    bids: [Option<Bid>; 16],
}

impl Register {
    // Nothing entered, and all tariffs 0.
    pub(crate) fn empty() -> Register
        ensures tariffs { tariff_at result.tariffs ≡ (λ g. 0) }
        ensures offers { offers_of result ≡ (λ u. None) }
        ensures bids { bids_of result ≡ (λ g. None) }
    {
        Register {
            tariffs: [Tariff { fen: 0 }; 17],
            offers: [None; 64],
            bids: [None; 16],
        }
    }

    // Sets the tariff of a grid, or with 16 the branch's.
    pub(crate) fn set_tariff(&mut self, grid: u32, tariff: Tariff)
        requires { grid < 17 }
        ensures tariffs { tariff_at self.new.tariffs ≡ at grid tariff.fen (tariff_at self.old.tariffs) }
        ensures others { (self.new.offers ≡ self.old.offers) × (self.new.bids ≡ self.old.bids) }
    {
        self.tariffs[grid as usize] = tariff;
    }

    // Enters a unit's offer in place of its earlier one.
    pub(crate) fn enter_offer(&mut self, offer: UnitOffer)
        ensures offers { offers_of self.new ≡ at offer.unit.number (Some (handed_over offer)) (offers_of self.old) }
        ensures others { (self.new.tariffs ≡ self.old.tariffs) × (self.new.bids ≡ self.old.bids) }
    {
        self.offers[usize::from(offer.unit.number)] = Some(offer);
    }

    // Removes a unit's offer.
    pub(crate) fn remove_offer(&mut self, unit: Unit)
        ensures offers { offers_of self.new ≡ at unit.number None (offers_of self.old) }
        ensures others { (self.new.tariffs ≡ self.old.tariffs) × (self.new.bids ≡ self.old.bids) }
    {
        self.offers[usize::from(unit.number)] = None;
    }

    // Enters a grid's bid in place of its earlier one; a need of 0 removes it.
    pub(crate) fn enter_bid(&mut self, bid: Bid)
        ensures bids { bids_of self.new ≡ at bid.grid.number (asked bid.price.fen bid.need) (bids_of self.old) }
        ensures others { (self.new.tariffs ≡ self.old.tariffs) × (self.new.offers ≡ self.old.offers) }
    {
        let entered = if bid.need == 0 { None } else { Some(bid) };
        self.bids[usize::from(bid.grid.number)] = entered;
    }

    // Removes the offers and bids of the point.
    pub(crate) fn remove_entries(&mut self)
        ensures offers { offers_of self.new ≡ (λ u. None) }
        ensures bids { bids_of self.new ≡ (λ g. None) }
        ensures others { self.new.tariffs ≡ self.old.tariffs }
    {
        self.offers = [None; 64];
        self.bids = [None; 16];
    }

    // Whether the unit is offered.
    pub(crate) fn has_offer(&self, unit: Unit) -> bool
        ensures { result ≡ is_some (offers_of self.now unit.number) }
    {
        self.offers[usize::from(unit.number)].is_some()
    }

    // Whether the grid bids.
    pub(crate) fn has_bid(&self, grid: Grid) -> bool
        ensures { result ≡ is_some (bids_of self.now grid.number) }
    {
        self.bids[usize::from(grid.number)].is_some()
    }

    // Whether any unit is offered.
    pub(crate) fn any_offered(&self) -> bool
        ensures { result ≡ any_below unit_count (λ u. is_some (offers_of self.now u)) }
    {
        self.offers.iter().any(|slot| slot.is_some())
    }

    // Whether a unit of the grid is offered.
    pub(crate) fn offered_on(&self, grid: Grid) -> bool
        ensures { result ≡ any_below unit_count (λ u. offered_on (offers_of self.now u) grid.number) }
    {
        self.offers
            .iter()
            .any(|slot| slot.is_some_and(|offer| offer.grid == grid))
    }

    // What a unit's grid and the branch take on each tenth.
    pub(crate) fn charges(&self, grid: Grid) -> Charges
        ensures { (result.grid.fen ≡ tariff_at self.now.tariffs grid.number) × (result.branch.fen ≡ tariff_at self.now.tariffs grid_count) }
    {
        Charges {
            grid: self.tariffs[usize::from(grid.number)],
            branch: self.tariffs[16],
        }
    }

    // The tier at a place, if there is one.
    fn tier_at(&self, place: u8) -> Option<Tier>
        ensures tier { TierAt (entries_in (point_of self.now)) place result }
        ensures slots { length self.now.offers ≡ unit_count }
    {
        let offer = self.offers[usize::from(place / 4)]?;
        offer.tier(usize::from(place % 4), self.charges(offer.grid))
    }

    // The tiers and bids of the point.
    pub(crate) fn entries(&self) -> PointEntries
        ensures { SameEntries (entries_of result) (entries_in (point_of self.now)) }
    {
        let mut tiers: [Option<Tier>; 256] = [None; 256];
        // A loop: for `array::from_fn` the closure would have to state what `tier_at` says of each place.
        for (place, slot) in tiers.iter_mut().enumerate() {
            *slot = self.tier_at(place as u8);
        }
        PointEntries {
            tiers,
            bids: self.bids,
        }
    }

    // The offers by unit.
    pub(crate) fn offers(&self) -> &[Option<UnitOffer>]
        ensures { result.now ≡ self.now.offers }
    {
        &self.offers
    }
}
