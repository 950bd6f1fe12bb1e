// The accounts of a day, in fortieths of a fen.
ghost use Rattle.std.specs.Prelude.{◌≡◌, ◌+◌, ◌<◌, ◌≤◌, IfOk};
ghost use Rattle.market.specs.Entries.{market_answer};
ghost use Rattle.market.specs.Rows.{topmost};
ghost use Rattle.outcome.specs.Outcome.{at};
ghost use Rattle.book.specs.Bounds.{max_money};
ghost use Rattle.book.specs.Views.{no_money};
ghost use Rattle.day.specs.Shown.{account_at, money_of};
ghost use Rattle.day.specs.Accounts.{account_rows, WholeFen};

use book::{Money, whole_fen};
use market::refusals::MarketRefusal;

// One account.
#[derive(Clone, Copy)]
pub struct Account {
    fortieths: u64,
}

impl Account {
    // No money yet.
    const NONE: Account = Account { fortieths: 0 };

    // Raises the account.
    pub(crate) fn raise(&mut self, by: u64)
        requires { self.old.fortieths + by ≤ max_money }
        ensures { self.new.fortieths ≡ self.old.fortieths + by }
    {
        self.fortieths += by;
    }

    // The money on the account.
    pub(crate) fn money(&self) -> Money
        ensures { WholeFen self.now.fortieths result }
    {
        whole_fen(self.fortieths)
    }
}

// The accounts of N parties. The index is the grid or the unit.
#[derive(Clone, Copy)]
pub struct Accounts<const N: usize> {
    rows: [Account; N],
}

impl<const N: usize> Accounts<N> {
    // Raises one account.
    pub(crate) fn raise(&mut self, number: usize, by: u64)
        requires known { number < N }
        requires fits { account_at self.old number + by ≤ max_money }
        ensures { account_at self.new ≡ at number (account_at self.old number + by) (account_at self.old) }
    {
        self.rows[number].raise(by);
    }

    // The money on one account. Declined with 4 where there is none of this number.
    pub(crate) fn money(&self, number: u32) -> Result<Money, MarketRefusal>
        ensures answer { market_answer result ≡ topmost (account_rows N number) }
        ensures money { IfOk result (λ m. WholeFen (account_at self.now number) m) }
    {
        let account = self
            .rows
            .get(number as usize)
            .ok_or(MarketRefusal::OutOfRange { name: number })?;
        Ok(account.money())
    }
}

// What each buyer is charged, and what each unit, each grid's wires and the branch receive.
#[derive(Clone, Copy)]
pub struct Ledger {
    pub charges: Accounts<16>,
    pub units: Accounts<64>,
    pub wires: Accounts<16>,
    pub branch: Account,
}

impl Ledger {
    // No money yet.
    pub(crate) fn empty() -> Ledger
        ensures { money_of result ≡ no_money }
    {
        Ledger {
            charges: Accounts {
                rows: [Account::NONE; 16],
            },
            units: Accounts {
                rows: [Account::NONE; 64],
            },
            wires: Accounts {
                rows: [Account::NONE; 16],
            },
            branch: Account::NONE,
        }
    }
}
