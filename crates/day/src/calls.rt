// The calls of a running day.
ghost use Rattle.std.specs.Prelude.{◌≡◌, true, false, is_ok, Some};
ghost use Rattle.lawful.specs.Lawful.{above};
ghost use Rattle.market.specs.Entries.{market_answer};
ghost use Rattle.market.specs.Rows.{topmost};
ghost use Rattle.book.specs.Views.{empty_day};
ghost use Rattle.book.specs.Calls as call;
ghost use Rattle.book.specs.Tables.{is_cleared, gate_rows, refusal};
ghost use Rattle.book.specs.Histories.{turn};
ghost use Rattle.book.specs.Promise.{StageWell};
ghost use Rattle.day.specs.Shown.{stage_of, wants_entry};
ghost use Rattle.day.specs.Day.{shown, award_shown, Clears};

use super::ledger::Ledger;
use super::register::Register;
use super::state::{CallKind, PointState};
use super::{RunningDay, settlement};
use clearing::points;
use market::entries::{RawOffer, UnitOffer};
use market::figures::{Tariff, Unit};
use market::maxima::{BRANCH_DISPATCH, MAX_ENTRIES, POINTS};
use market::refusals::MarketRefusal;
use market::tiers::Bid;
use screen::Screen;

impl RunningDay {
    // A day starts empty at point 1 with all tariffs 0.
    pub fn start() -> RunningDay
        ensures { shown result ≡ empty_day }
    {
        RunningDay {
            posted: 0,
            entered: 0,
            register: Register::empty(),
            state: PointState::Entering,
            ledger: Ledger::empty(),
        }
    }

    // Whether the day takes the call: 1 once 96 points are posted, else as the state of the point has it.
    fn admit(&self, call: CallKind, name: u32) -> Result<(), MarketRefusal>
        ensures { market_answer result ≡ topmost (gate_rows self.now.posted (is_cleared (stage_of self.now.state)) (wants_entry call) name) }
    {
        if self.posted >= POINTS {
            return Err(MarketRefusal::DayFull { name });
        }
        self.state.admit(call, name)
    }

    // Sets the tariff of a grid, or with 16 the branch's, in fen. Declined with 9 while a unit is offered or once a point is posted.
    pub fn tariff(&mut self, grid: u32, fen: u32) -> Result<(), MarketRefusal>
        ensures answer { market_answer result ≡ refusal (shown self.old) (call.tariff grid fen) }
        ensures day { shown self.new ≡ turn (call.tariff grid fen) (shown self.old) }
    {
        self.admit(CallKind::Tariff, grid)?;
        let tariff = Tariff::checked(grid, fen)?;
        if self.register.any_offered() || self.posted > 0 {
            return Err(MarketRefusal::TariffsFixed { grid });
        }
        self.register.set_tariff(grid, tariff);
        Ok(())
    }

    // Enters a unit's offer in place of its earlier one.
    pub fn offer(&mut self, raw: &RawOffer) -> Result<(), MarketRefusal>
        ensures answer { market_answer result ≡ refusal (shown self.old) (call.offer raw.now) }
        ensures day { shown self.new ≡ turn (call.offer raw.now) (shown self.old) }
    {
        self.admit(CallKind::Offer, raw.unit)?;
        let offer = UnitOffer::checked(raw)?;
        if self.register.has_bid(offer.grid) {
            return Err(MarketRefusal::BothSides { name: raw.unit });
        }
        if self.entered >= MAX_ENTRIES {
            return Err(MarketRefusal::EntriesFull { name: raw.unit });
        }
        self.register.enter_offer(offer);
        self.entered += 1;
        Ok(())
    }

    // Removes a unit's offer. Declined with 10 where it is not offered.
    pub fn withdraw(&mut self, unit: u32) -> Result<(), MarketRefusal>
        ensures answer { market_answer result ≡ refusal (shown self.old) (call.withdraw unit) }
        ensures day { shown self.new ≡ turn (call.withdraw unit) (shown self.old) }
    {
        self.admit(CallKind::Withdraw, unit)?;
        let seller = Unit::try_from(unit)?;
        if !self.register.has_offer(seller) {
            return Err(MarketRefusal::NotOffered { unit });
        }
        if self.entered >= MAX_ENTRIES {
            return Err(MarketRefusal::EntriesFull { name: unit });
        }
        self.register.remove_offer(seller);
        self.entered += 1;
        Ok(())
    }

    // Enters a grid's bid in place of its earlier one; a need of 0 removes it.
    pub fn bid(&mut self, grid: u32, price: u32, need: u32) -> Result<(), MarketRefusal>
        ensures answer { market_answer result ≡ refusal (shown self.old) (call.bid grid price need) }
        ensures day { shown self.new ≡ turn (call.bid grid price need) (shown self.old) }
    {
        self.admit(CallKind::Bid, grid)?;
        let bid = Bid::checked(grid, price, need)?;
        if need > 0 && (grid == BRANCH_DISPATCH || self.register.offered_on(bid.grid)) {
            return Err(MarketRefusal::BothSides { name: grid });
        }
        if self.entered >= MAX_ENTRIES {
            return Err(MarketRefusal::EntriesFull { name: grid });
        }
        self.register.enter_bid(bid);
        self.entered += 1;
        Ok(())
    }

    // Clears the point through a screen: resets it, and leaves the awards taken in it. Declined, it leaves day and screen as they were.
    pub fn clear<S: Screen>(&mut self, screen: &mut S) -> Result<(), MarketRefusal>
        ensures day { Clears (S.fresh screen.old) (shown self.old) (market_answer result) (shown self.new) }
        ensures declared { is_ok result ≡ true → StageWell (shown self.new) (shown self.new).stage (Some (S.fresh screen.old)) }
        ensures taken { is_ok result ≡ true → S.ontop screen.new ≡ above (award_shown self.new) (S.fresh screen.old) }
        ensures set { (S.settings screen.new ≡ S.settings screen.old) × (S.fresh screen.new ≡ S.fresh screen.old) }
        ensures declined { is_ok result ≡ false → screen.new ≡ screen.old }
    {
        self.admit(CallKind::Clear, 0)?;
        let entries = self.register.entries();
        self.state = PointState::Cleared(points::clear(&entries, screen));
        Ok(())
    }

    // Forgets the clearing and keeps the entries.
    pub fn reopen(&mut self) -> Result<(), MarketRefusal>
        ensures answer { market_answer result ≡ refusal (shown self.old) call.reopen }
        ensures day { shown self.new ≡ turn call.reopen (shown self.old) }
    {
        self.admit(CallKind::Reopen, 0)?;
        self.state = PointState::Entering;
        Ok(())
    }

    // Adds the cleared point to the accounts, removes its entries and moves to the next.
    pub fn post(&mut self) -> Result<(), MarketRefusal>
        ensures answer { market_answer result ≡ refusal (shown self.old) call.post }
        ensures day { shown self.new ≡ turn call.post (shown self.old) }
    {
        self.admit(CallKind::Post, 0)?;
        let PointState::Cleared(cleared) = self.state else {
            return Err(MarketRefusal::NotCleared);
        };
        settlement::post(&mut self.ledger, &self.register, &cleared);
        self.register.remove_entries();
        self.state = PointState::Entering;
        self.posted += 1;
        Ok(())
    }
}
