// The records of a sheet, each put onto a running day and a screen.
ghost use Rattle.std.specs.Prelude.{◌≡◌};
ghost use Rattle.day.specs.Day.{shown};
ghost use Rattle.loads.specs.Faults.{record_answer};
ghost use Rattle.loads.specs.Loads as loads;
ghost use Rattle.loads.specs.Loads.{unit, bid, limit, day_after, declines, settings_after};

use super::faults::RecordFault;
use day::RunningDay;
use market::entries::RawOffer;
use screen::{NodeLimits, Screen};
use sheet::records::{BidRecord, LimitRecord, Record};

// A record that goes onto a day and a screen.
pub(crate) trait Entry: Record + Copy {
    // What it is in the sheet.
    ghost entry: { Self → loads.Record };

    // Puts it onto the day and the screen.
    fn enter<S: Screen + NodeLimits>(
        self,
        day: &mut RunningDay,
        screen: &mut S,
    ) -> Result<(), RecordFault>
        ensures answer { record_answer result ≡ declines (S.nodes screen.old) (entry self) (shown day.old) }
        ensures day { shown day.new ≡ day_after (entry self) (shown day.old) }
        ensures set { S.settings screen.new ≡ settings_after (S.layers screen.old) (S.nodes screen.old) (entry self) (shown day.old, S.settings screen.old) }
        ensures shape { (S.nodes screen.new ≡ S.nodes screen.old) × (S.layers screen.new ≡ S.layers screen.old) }
        ensures opened { S.ontop screen.old ≡ S.fresh screen.old → S.ontop screen.new ≡ S.fresh screen.new };
}

// A unit is offered, and hangs on its grid where it is accepted.
impl Entry for RawOffer {
    ghost entry = { unit };

    fn enter<S: Screen + NodeLimits>(
        self,
        day: &mut RunningDay,
        screen: &mut S,
    ) -> Result<(), RecordFault> {
        day.offer(&self)?;
        screen.hang(self.unit, self.grid)?;
        Ok(())
    }
}

impl Entry for BidRecord {
    ghost entry = { bid };

    fn enter<S: Screen + NodeLimits>(
        self,
        day: &mut RunningDay,
        screen: &mut S,
    ) -> Result<(), RecordFault> {
        day.bid(self.grid, self.price, self.need)?;
        Ok(())
    }
}

impl Entry for LimitRecord {
    ghost entry = { limit };

    fn enter<S: Screen + NodeLimits>(
        self,
        day: &mut RunningDay,
        screen: &mut S,
    ) -> Result<(), RecordFault> {
        screen.set_limit(self.grid, self.limit)?;
        Ok(())
    }
}
