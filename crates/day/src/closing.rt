// The close of a day.
ghost use Rattle.std.specs.Prelude.{◌≡◌, List};
ghost use Rattle.book.specs.Calls.{Call};
ghost use Rattle.book.specs.Histories.{history};
ghost use Rattle.day.specs.Day.{shown, accounts, LedTo, ClosesWell};

use super::{ClosedDay, RunningDay};

impl RunningDay {
    // Ends the day and drops an unposted point. Some list of calls led to this day, and for every list that did, the promise was kept
    // at every moment of it.
    pub fn close(self) -> ClosedDay
        ensures accounts { accounts result ≡ (shown self).money }
        ensures led { LedTo (shown self) }
        ensures promise { (h : List Call) → shown self ≡ history h → ClosesWell h (accounts result) }
    {
        let RunningDay {
            posted: _,
            entered: _,
            register: _,
            state: _,
            ledger,
        } = self;
        ClosedDay { ledger }
    }
}
