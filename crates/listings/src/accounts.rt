// The lines of a closed day's accounts.
ghost use Rattle.std.specs.Prelude.{◌≡◌, ◌+◌, ◌*◌, ◌<◌, ◌≤◌, length, IsOk, IfOk};
ghost use Rattle.day.specs.Accounts.{WholeFen};
ghost use Rattle.day.specs.Day.{accounts};
ghost use Rattle.listings.specs.Pages.{Added};
ghost use Rattle.listings.specs.Parties.{account_line, account_lines, letter_of, money_of, party_count};

use super::letters;
use super::writing::{Page, write_money};
use book::Money;
use day::ClosedDay;
use market::maxima::{GRIDS, UNITS};
use market::refusals::MarketRefusal;

// Those who have an account of their own: the buyers by grid, the units, and the wires by grid.
#[derive(Clone, Copy)]
pub enum Party {
    Buyer,
    Unit,
    Wires,
}

impl Party {
    // How many there are of its kind.
    fn count(self) -> u32
        ensures { result ≡ party_count self }
    {
        match self {
            Party::Buyer | Party::Wires => GRIDS,
            Party::Unit => UNITS,
        }
    }

    // The letter of its line.
    fn letter(self) -> u8
        ensures { result ≡ letter_of self }
    {
        match self {
            Party::Buyer => letters::CHARGE,
            Party::Unit => letters::UNIT,
            Party::Wires => letters::WIRES,
        }
    }

    // What the one with a number was charged, or received.
    fn money(self, day: &ClosedDay, number: u32) -> Result<Money, MarketRefusal>
        requires { number < party_count self }
        ensures there { IsOk result }
        ensures money { IfOk result (λ m. WholeFen (money_of self (accounts day.now) number) m) }
    {
        match self {
            Party::Buyer => day.charge(number),
            Party::Unit => day.unit(number),
            Party::Wires => day.wires(number),
        }
    }
}

// The account of the one with a number.
#[inline(always)]
fn write_account(page: &mut Page<'_>, day: &ClosedDay, party: Party, number: u32)
    requires number { number < party_count party }
    requires room { page.old.end + 65 ≤ length page.old.buffer.now }
    ensures { Added page.old page.new (account_line party (accounts day.now) number) }
{
    // There is an account of this number, so the answer is no error.
    if let Ok(money) = party.money(day, number) {
        write_money(page, party.letter(), number, money);
    }
}

// The accounts of those of a kind that have money, by number. Inlined, so that each kind has a loop of its own.
#[inline(always)]
pub fn write_accounts(page: &mut Page<'_>, day: &ClosedDay, party: Party)
    requires { page.old.end + 65 * party_count party ≤ length page.old.buffer.now }
    ensures text { Added page.old page.new (account_lines party (accounts day.now)) }
    ensures few { page.new.end ≤ page.old.end + 65 * party_count party }
{
    for number in 0..party.count() {
        write_account(page, day, party, number);
    }
}
