// A sheet loaded onto a running day and a screen with a base of grids.
ghost use Rattle.std.specs.Prelude.{◌≡◌, ◌+◌, ◌*◌, ◌^◌, ◌<◌, ◌≤◌, length, drop, IfOk, Some, None};
ghost use Rattle.market.specs.Maxima.{grid_count};
ghost use Rattle.market.specs.Entries.{market_answer};
ghost use Rattle.market.specs.Rows.{topmost};
ghost use Rattle.market.specs.declared.refusals.Refusal.{Refusal};
ghost use Rattle.day.specs.Day.{shown};
ghost use Rattle.loads.specs.Faults.{fault_of};
ghost use Rattle.loads.specs.Loads.{records_in, body_records, load_from, opened_to, day_rows, first_refusal, loaded, Led};

use super::entries::Entry;
use super::faults::LoadFault;
use day::RunningDay;
use market::entries::RawOffer;
use market::maxima::{GRIDS, MAX_LIMIT, POINTS};
use market::refusals::{MarketRefusal, SheetRefusal};
use screen::{NodeLimits, Screen};
use sheet::header::{Header, Sheet};
use sheet::records::{BidRecord, LimitRecord};

// Whether the day takes a sheet: 1 once 96 points are posted, 2 where the point is cleared.
fn admit(day: &RunningDay) -> Result<(), MarketRefusal>
    ensures { market_answer result ≡ topmost (day_rows (shown day.now)) }
{
    if day.points_posted() >= POINTS {
        return Err(MarketRefusal::DayFull { name: 0 });
    }
    match day.declared() {
        Some(_) => Err(MarketRefusal::Cleared { name: 0 }),
        None => Ok(()),
    }
}

// Sets every limit of grids 0 to 15 to the most, so that none is left from the sheet before.
fn open_limits<S: Screen + NodeLimits>(screen: &mut S)
    ensures set { S.settings screen.new ≡ opened_to (S.layers screen.old) (S.nodes screen.old) grid_count (S.settings screen.old) }
    ensures shape { (S.nodes screen.new ≡ S.nodes screen.old) × (S.layers screen.new ≡ S.layers screen.old) }
    ensures opened { 0 < S.nodes screen.old → S.ontop screen.new ≡ S.fresh screen.new }
{
    for node in 0..GRIDS {
        // Declined where the screen has fewer nodes.
        let _ = screen.set_limit(node, MAX_LIMIT);
    }
}

// Loads so many records of a kind, which stand at the start of the bytes, and gives the bytes behind them. The first has a position.
// Day and screen stay two parameters: what is promised of each is said apart, and the caller lends both for one load only.
fn load_records<'a, R: Entry, S: Screen + NodeLimits>(
    day: &mut RunningDay,
    screen: &mut S,
    bytes: &'a [u8],
    first: u32,
    count: u32,
) -> Result<&'a [u8], LoadFault>
    requires bytes { R.BYTES * count ≤ length bytes.now }
    requires positions { first + count < 2 ^ 32 }
    ensures load { load_from (S.layers screen.old) (S.nodes screen.old) first (records_in R.BYTES (λ s. R.entry (R.at_start s)) count bytes.now) (shown day.old, S.settings screen.old) ≡ ((shown day.new, S.settings screen.new), fault_of result) }
    ensures behind { IfOk result (λ rest. rest.now ≡ drop (R.BYTES * count) bytes.now) }
    ensures shape { (S.nodes screen.new ≡ S.nodes screen.old) × (S.layers screen.new ≡ S.layers screen.old) }
    ensures opened { S.ontop screen.old ≡ S.fresh screen.old → S.ontop screen.new ≡ S.fresh screen.new }
{
    let mut rest = bytes;
    // There are bytes for each record, so none is ever too short.
    for position in first..first + count {
        let (record, behind) = R::take(rest).ok_or(SheetRefusal::TooShort)?;
        record
            .enter(day, screen)
            .map_err(|fault| LoadFault::Record { fault, position })?;
        rest = behind;
    }
    Ok(rest)
}

// Loads the records of a sheet: units, then bids, then limits.
fn load_sheet<S: Screen + NodeLimits>(
    day: &mut RunningDay,
    screen: &mut S,
    sheet: &Sheet,
) -> Result<(), LoadFault>
    ensures load { load_from (S.layers screen.old) (S.nodes screen.old) 0 (body_records sheet.now.header sheet.now.records.now) (shown day.old, S.settings screen.old) ≡ ((shown day.new, S.settings screen.new), fault_of result) }
    ensures shape { (S.nodes screen.new ≡ S.nodes screen.old) × (S.layers screen.new ≡ S.layers screen.old) }
    ensures opened { S.ontop screen.old ≡ S.fresh screen.old → S.ontop screen.new ≡ S.fresh screen.new }
{
    let Header {
        units,
        bids,
        limits,
        ..
    } = sheet.header;
    let (units, bids, limits) = (u32::from(units), u32::from(bids), u32::from(limits));
    let behind_units = load_records::<RawOffer, S>(day, screen, sheet.records, 0, units)?;
    let behind_bids = load_records::<BidRecord, S>(day, screen, behind_units, units, bids)?;
    load_records::<LimitRecord, S>(day, screen, behind_bids, units + bids, limits)?;
    Ok(())
}

// Loads a sheet: opens every limit, then takes units, bids and limits in file order.
// Declined by the day's state or the sheet, it alters nothing; a refused record ends it, and what came before stays.
pub fn load<S: Screen + NodeLimits>(
    day: &mut RunningDay,
    screen: &mut S,
    bytes: &[u8],
) -> Result<(), LoadFault>
    ensures load { loaded (S.layers screen.old) (S.nodes screen.old) bytes.now (shown day.old, S.settings screen.old) ≡ ((shown day.new, S.settings screen.new), fault_of result) }
    ensures calls { Led (shown day.old) (shown day.new) }
    ensures shape { (S.nodes screen.new ≡ S.nodes screen.old) × (S.layers screen.new ≡ S.layers screen.old) }
    ensures declined { (e : Refusal) → first_refusal (shown day.old) bytes.now ≡ Some e → screen.new ≡ screen.old }
    ensures opened { first_refusal (shown day.old) bytes.now ≡ None → 0 < S.nodes screen.old → S.ontop screen.new ≡ S.fresh screen.new }
{
    admit(day)?;
    let sheet = Sheet::checked(bytes, u16::from(day.points_posted()) + 1)?;
    open_limits(screen);
    load_sheet(day, screen, &sheet)
}
