// Why a load is declined: the refusal of the sheet, the market or the screen, with the position of the record at fault.
ghost use Rattle.std.specs.Prelude.{◌≡◌};
ghost use Rattle.loads.specs.Faults.{record_refusal, refusal_in, position_in};
ghost use Rattle.loads.specs.declared.faults.LoadFault.TheVariants as fault;
ghost use Rattle.loads.specs.declared.faults.RecordFault.TheVariants as record_fault;

use market::refusals::{MarketRefusal, Refusal, ScreenRefusal, SheetRefusal};

// Who declines a record, and why.
#[derive(Clone, Copy, PartialEq, Eq, Debug)]
pub enum RecordFault {
    Market(MarketRefusal),
    Screen(ScreenRefusal),
}

#[derive(Clone, Copy, PartialEq, Eq, Debug)]
pub enum LoadFault {
    // The sheet or the strip cannot be read.
    Sheet(SheetRefusal),
    // The day takes no sheet.
    State(MarketRefusal),
    // The record at the position, counted from 0, is declined.
    Record { fault: RecordFault, position: u32 },
}

impl From<MarketRefusal> for RecordFault {
    ghost from_gives = { λ e r. r ≡ record_fault.Market e };

    fn from(e: MarketRefusal) -> RecordFault {
        RecordFault::Market(e)
    }
}

impl From<ScreenRefusal> for RecordFault {
    ghost from_gives = { λ e r. r ≡ record_fault.Screen e };

    fn from(e: ScreenRefusal) -> RecordFault {
        RecordFault::Screen(e)
    }
}

impl From<SheetRefusal> for LoadFault {
    ghost from_gives = { λ e r. r ≡ fault.Sheet e };

    fn from(e: SheetRefusal) -> LoadFault {
        LoadFault::Sheet(e)
    }
}

impl From<MarketRefusal> for LoadFault {
    ghost from_gives = { λ e r. r ≡ fault.State e };

    fn from(e: MarketRefusal) -> LoadFault {
        LoadFault::State(e)
    }
}

impl From<RecordFault> for Refusal {
    ghost from_gives = { λ e r. r ≡ record_refusal e };

    fn from(e: RecordFault) -> Refusal {
        match e {
            RecordFault::Market(refusal) => Refusal::from(refusal),
            RecordFault::Screen(refusal) => Refusal::from(refusal),
        }
    }
}

impl From<LoadFault> for Refusal {
    ghost from_gives = { λ e r. r ≡ refusal_in e };

    fn from(e: LoadFault) -> Refusal {
        match e {
            LoadFault::Sheet(refusal) => Refusal::from(refusal),
            LoadFault::State(refusal) => Refusal::from(refusal),
            LoadFault::Record { fault, .. } => Refusal::from(fault),
        }
    }
}

impl LoadFault {
    // The position of the record at fault, 0 where there is none, as a line of text has it.
    pub fn position(self) -> u32
        ensures { result ≡ position_in self }
    {
        match self {
            LoadFault::Sheet(_) | LoadFault::State(_) => 0,
            LoadFault::Record { position, .. } => position,
        }
    }
}
