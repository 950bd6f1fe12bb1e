#![tactic(auto)]

// A day of the reserve market: its calls, its accounts and its close.
ghost use Rattle.day.specs.Shown.{shown_of, money_of};
ghost use Rattle.day.specs.Followed.{Followed, Settled};

mod accounts;
mod calls;
mod closing;
mod ledger;
mod reads;
mod register;
mod settlement;
mod state;

use ledger::Ledger;
use register::Register;
use state::PointState;

// A day that takes calls: points posted, entry count, register, the state of its point, and its accounts.
// It cannot be copied, and it ends only by `close`. A list of calls led to it.
pub struct RunningDay {
    posted: u8,
    entered: u32,
    register: Register,
    state: PointState,
    ledger: Ledger,
    ghost followed: { ∥ Followed (shown_of posted entered register state ledger) state ∥₁ },
}

// A day that has ended: it takes no call and answers its accounts. It cannot be copied. A list of calls led to its accounts.
#[derive(Drop)]
pub struct ClosedDay {
    ledger: Ledger,
    ghost settled: { ∥ Settled (money_of ledger) ∥₁ },
}
