// The accounts of a closed day.
ghost use Rattle.std.specs.Prelude.{◌≡◌, IfOk};
ghost use Rattle.market.specs.Entries.{market_answer};
ghost use Rattle.market.specs.Maxima.{unit_count, grid_count};
ghost use Rattle.market.specs.Rows.{topmost};
ghost use Rattle.day.specs.Accounts.{account_rows, WholeFen};
ghost use Rattle.day.specs.Followed.{Settled};
ghost use Rattle.day.specs.Day.{accounts};

use super::ClosedDay;
use book::Money;
use market::refusals::MarketRefusal;

impl ClosedDay {
    // What a buyer was charged. Declined with 4 where there is no such grid.
    pub fn charge(&self, grid: u32) -> Result<Money, MarketRefusal>
        ensures answer { market_answer result ≡ topmost (account_rows grid_count grid) }
        ensures money { IfOk result (λ m. WholeFen ((accounts self.now).charge grid) m) }
    {
        self.ledger.charges.money(grid)
    }

    // What a unit received. Declined with 4 where there is no such unit.
    pub fn unit(&self, unit: u32) -> Result<Money, MarketRefusal>
        ensures answer { market_answer result ≡ topmost (account_rows unit_count unit) }
        ensures money { IfOk result (λ m. WholeFen ((accounts self.now).unit unit) m) }
    {
        self.ledger.units.money(unit)
    }

    // What a grid received for its wires. Declined with 4 where there is no such grid.
    pub fn wires(&self, grid: u32) -> Result<Money, MarketRefusal>
        ensures answer { market_answer result ≡ topmost (account_rows grid_count grid) }
        ensures money { IfOk result (λ m. WholeFen ((accounts self.now).wires grid) m) }
    {
        self.ledger.wires.money(grid)
    }

    // What the branch received. A list of calls led to the accounts.
    pub fn branch(&self) -> Money
        ensures money { WholeFen (accounts self.now).branch result }
        ensures led { ∥ Settled (accounts self.now) ∥₁ }
    {
        self.ledger.branch.money()
    }
}
