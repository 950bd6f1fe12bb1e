// The state of the day's point, and which state takes which call.
ghost use Rattle.std.specs.Prelude.{◌≡◌};
ghost use Rattle.market.specs.Entries.{market_answer};
ghost use Rattle.market.specs.Rows.{topmost};
ghost use Rattle.book.specs.Tables.{is_cleared, point_rows};
ghost use Rattle.day.specs.Shown.{stage_of, wants_entry};

use clearing::points::Cleared;
use market::refusals::MarketRefusal;

// A point is being entered, or cleared with what was declared: two states by name, each with calls that it alone takes, and no `Option`.
#[derive(Clone, Copy)]
pub enum PointState {
    Entering,
    Cleared(Cleared),
}

// The calls of a running day.
#[derive(Clone, Copy)]
pub enum CallKind {
    Tariff,
    Offer,
    Withdraw,
    Bid,
    Clear,
    Reopen,
    Post,
}

impl PointState {
    // One match on state and call. It decides and runs nothing, so there is no step to hand in.
    // Whether the point takes the call: entries and clear while it is being entered, else 2; reopen and post once it is cleared, else 3.
    pub(crate) fn admit(&self, call: CallKind, name: u32) -> Result<(), MarketRefusal>
        ensures { market_answer result ≡ topmost (point_rows (is_cleared (stage_of self.now)) (wants_entry call) name) }
    {
        match (self, call) {
            (PointState::Entering, CallKind::Reopen | CallKind::Post) => {
                Err(MarketRefusal::NotCleared)
            }
            (PointState::Cleared(_), CallKind::Reopen | CallKind::Post) => Ok(()),
            (PointState::Entering, _) => Ok(()),
            (PointState::Cleared(_), _) => Err(MarketRefusal::Cleared { name }),
        }
    }
}
