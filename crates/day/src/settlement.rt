// What a post adds to the accounts.
ghost use Rattle.std.specs.Prelude.{◌≡◌, ℕ, ◌+◌, ◌-◌, ◌*◌, ◌<◌, ◌≤◌, length, sum, option_copied, nat_le};
ghost use Rattle.std.specs.List.{find};
ghost use Rattle.market.specs.Maxima.{grid_count, unit_count, bands_of_unit};
ghost use Rattle.outcome.specs.Outcome.{at};
ghost use Rattle.book.specs.Bounds.{Postable, max_money};
ghost use Rattle.book.specs.Money.{posted_money, receipt_of, wires_of, branch_of};
ghost use Rattle.day.specs.Amounts.{charged_over, price_over, received_in, Covered};
ghost use Rattle.day.specs.Shown.{declaration_of, money_of, account_at};
ghost use Rattle.day.specs.Posting.{posting, ReadOff};

use super::ledger::{Accounts, Ledger};
use super::register::Register;
use clearing::points::{Cleared, Segment};
use market::entries::UnitOffer;
use market::figures::{Charges, Grid, Offer};
use market::maxima::GRIDS;

// What a buyer is charged over these segments: share × price in each.
fn charge_over(segments: &[Segment], grid: usize) -> u64
    requires known { grid < grid_count }
    requires fits { charged_over segments.now grid ≤ max_money }
    ensures { result ≡ charged_over segments.now grid }
{
    segments
        .iter()
        .map(|segment| u64::from(segment.shares[grid]) * u64::from(segment.price))
        .sum()
}

// The segment in which a landed offer stands: the first whose bid is at or above it.
fn segment_over(segments: &[Segment], landed: u32) -> Option<&Segment>
    ensures { option_copied result ≡ find (λ s. nat_le landed s.bid) segments.now }
{
    segments.iter().find(|segment| landed <= segment.bid)
}

// The price of the segment in which a landed offer stands, 0 where there is none.
fn price_over(segments: &[Segment], landed: u32) -> u32
    ensures { result ≡ price_over segments.now landed }
{
    segment_over(segments, landed).map_or(0, |segment| segment.price)
}

// What an award in a band brings: award × (price − what lies between).
fn receipt_in(segments: &[Segment], award: u32, landed: u32, between: u32) -> u64
    requires { 0 < award → between ≤ price_over segments.now landed }
    ensures { result ≡ award * (price_over segments.now landed - between) }
{
    if award == 0 {
        return 0;
    }
    u64::from(award) * u64::from(price_over(segments, landed) - between)
}

// The prices of an offer by band.
fn offers_in(offer: &UnitOffer) -> &[Offer]
    ensures prices { result.now ≡ offer.now.offers }
    ensures bands { length result.now ≡ bands_of_unit }
{
    &offer.offers
}

// A unit that is paid: its grid, the tariffs on each tenth, the segments of the point, and its offers and awards by band.
// Where it is awarded something, the price covers what lies between, and its money fits.
#[derive(Clone, Copy)]
struct Seller<'a> {
    grid: Grid,
    charges: Charges,
    segments: &'a [Segment],
    offers: &'a [Offer],
    awards: &'a [u32],
    ghost covered: { Covered charges segments.now awards.now offers.now },
    ghost small: { sum awards.now ≤ max_money },
    ghost fits: { received_in charges segments.now awards.now offers.now ≤ max_money },
}

impl Seller<'_> {
    ghost use Rattle.day.specs.Sellers.{awarded_to, received_by};

    // What it is awarded in its bands.
    fn awarded(&self) -> u64
        ensures { result ≡ awarded_to self.now }
    {
        self.awards.iter().map(|&award| u64::from(award)).sum()
    }

    // What it receives in its bands.
    fn receipt(&self) -> u64
        ensures { result ≡ received_by self.now }
    {
        let between = self.charges.deducted();
        // A loop: in a chain that the price covers what lies between is not carried through the zip to its closure.
        let mut all = 0;
        for (&award, offer) in self.awards.iter().zip(self.offers) {
            let landed = offer.land(self.charges).fen();
            all += receipt_in(self.segments, award, landed, between);
        }
        all
    }

    // Pays the unit of this number its receipt, and its grid and the branch their tariffs on its award.
    fn pay(&self, unit: usize, ledger: &mut Ledger)
        requires known { unit < unit_count }
        requires receipt { account_at ledger.old.units unit + received_by self.now ≤ max_money }
        requires wires { account_at ledger.old.wires self.now.grid.number + awarded_to self.now * self.now.charges.grid.fen ≤ max_money }
        requires branch { ledger.old.branch.fortieths + awarded_to self.now * self.now.charges.branch.fen ≤ max_money }
        ensures units { account_at ledger.new.units ≡ at unit (account_at ledger.old.units unit + received_by self.now) (account_at ledger.old.units) }
        ensures wires { account_at ledger.new.wires ≡ at self.now.grid.number (account_at ledger.old.wires self.now.grid.number + awarded_to self.now * self.now.charges.grid.fen) (account_at ledger.old.wires) }
        ensures branch { ledger.new.branch.fortieths ≡ ledger.old.branch.fortieths + awarded_to self.now * self.now.charges.branch.fen }
        ensures charges { ledger.new.charges ≡ ledger.old.charges }
    {
        let awarded = self.awarded();
        ledger.units.raise(unit, self.receipt());
        ledger.wires.raise(
            usize::from(self.grid.number),
            awarded * u64::from(self.charges.grid.fen),
        );
        ledger
            .branch
            .raise(awarded * u64::from(self.charges.branch.fen));
    }
}

// Pays every unit that is offered, with its grid and the branch.
// What it asks of register and ledger is asked in `post` too and nowhere else; it speaks of the ledger that both change, so no type can hold it.
fn pay_sellers(ledger: &mut Ledger, register: &Register, cleared: &Cleared)
    requires read { ReadOff register.now cleared.now }
    requires postable { Postable (posting register.now ledger.old) (declaration_of cleared.now) }
    ensures units { (u : ℕ) → account_at ledger.new.units u ≡ account_at ledger.old.units u + receipt_of (posting register.now ledger.old) (declaration_of cleared.now) u }
    ensures wires { (g : ℕ) → account_at ledger.new.wires g ≡ account_at ledger.old.wires g + wires_of (posting register.now ledger.old) (declaration_of cleared.now) g }
    ensures branch { ledger.new.branch.fortieths ≡ ledger.old.branch.fortieths + branch_of (posting register.now ledger.old) (declaration_of cleared.now) }
    ensures charges { ledger.new.charges ≡ ledger.old.charges }
{
    let segments = cleared.segments();
    for (unit, slot) in register.offers().iter().enumerate() {
        if let Some(offer) = slot {
            let charges = register.charges(offer.grid);
            let awards = &cleared.awards[4 * unit..4 * unit + 4];
            let seller = Seller {
                grid: offer.grid,
                charges,
                segments,
                offers: offers_in(offer),
                awards,
            };
            seller.pay(unit, ledger);
        }
    }
}

// Charges every buyer over these segments.
fn charge_buyers(charges: &mut Accounts<16>, segments: &[Segment])
    requires { (g : ℕ) → g < grid_count → account_at charges.old g + charged_over segments.now g ≤ max_money }
    ensures { (g : ℕ) → account_at charges.new g ≡ account_at charges.old g + charged_over segments.now g }
{
    for grid in 0..GRIDS as usize {
        charges.raise(grid, charge_over(segments, grid));
    }
}

// Posts a cleared point: pays each unit award × (price − what lies between), its grid award × tariff, and the branch award × its tariff;
// charges each buyer share × price in each segment.
pub(crate) fn post(ledger: &mut Ledger, register: &Register, cleared: &Cleared)
    requires read { ReadOff register.now cleared.now }
    requires postable { Postable (posting register.now ledger.old) (declaration_of cleared.now) }
    ensures { money_of ledger.new ≡ posted_money (posting register.now ledger.old) (declaration_of cleared.now) }
{
    pay_sellers(ledger, register, cleared);
    charge_buyers(&mut ledger.charges, cleared.segments());
}
