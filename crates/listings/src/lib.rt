#![tactic(auto)]

// The listing of a cleared point and of a closed day, written into a buffer of the caller.
ghost use Rattle.std.specs.Prelude.{◌≡◌, ◌≤◌, length, IfOk};
ghost use Rattle.market.specs.Entries.{market_answer};
ghost use Rattle.market.specs.Maxima.{listing_room};
ghost use Rattle.market.specs.Rows.{topmost};
ghost use Rattle.day.specs.Day.{accounts, shown};
ghost use Rattle.listings.specs.Listings.{closing_listing, closing_rows, filled, listing_rows, point_listing};

mod accounts;
mod letters;
mod points;
mod writing;

use accounts::{Party, write_accounts};
use day::{ClosedDay, RunningDay};
use market::maxima::POINTS;
use market::refusals::MarketRefusal;
use points::{write_awards, write_segments, write_shares};
use writing::{Page, write_branch, write_point};

// The bytes that any listing fits into.
pub const LISTING_ROOM: usize = 8_192;

// Lists the cleared point from the start of the buffer on, and answers how long the listing is, never more
// than 8,192 bytes. Declined with 1 after 96 posted points, 3 where the point is not cleared, 13 under 8,192 bytes, and the buffer is
// then untouched.
pub fn list_point(day: &RunningDay, buffer: &mut [u8]) -> Result<usize, MarketRefusal>
    ensures answer { market_answer result ≡ topmost (listing_rows (shown day.now) (length buffer.old)) }
    ensures long { IfOk result (λ n. n ≡ length (point_listing (shown day.now))) }
    ensures few { IfOk result (λ n. n ≤ listing_room) }
    ensures bytes { buffer.new ≡ filled result buffer.old (point_listing (shown day.now)) }
{
    let posted = day.points_posted();
    if posted >= POINTS {
        return Err(MarketRefusal::DayFull { name: 0 });
    }
    let Some(cleared) = day.declared() else {
        return Err(MarketRefusal::NotCleared);
    };
    if buffer.len() < LISTING_ROOM {
        return Err(MarketRefusal::ShortBuffer);
    }
    let mut page = Page { buffer, end: 0 };
    write_point(&mut page, posted, day.entry_count());
    write_segments(&mut page, cleared.segments());
    write_awards(&mut page, &cleared.awards);
    write_shares(&mut page, &cleared.got);
    Ok(page.end)
}

// Lists the accounts of a closed day from the start of the buffer on, and answers how long the listing is,
// never more than 8,192 bytes. Declined with 13 under 8,192 bytes, and the buffer is then untouched.
pub fn list_closing(day: &ClosedDay, buffer: &mut [u8]) -> Result<usize, MarketRefusal>
    ensures answer { market_answer result ≡ topmost (closing_rows (length buffer.old)) }
    ensures long { IfOk result (λ n. n ≡ length (closing_listing (accounts day.now))) }
    ensures few { IfOk result (λ n. n ≤ listing_room) }
    ensures bytes { buffer.new ≡ filled result buffer.old (closing_listing (accounts day.now)) }
{
    if buffer.len() < LISTING_ROOM {
        return Err(MarketRefusal::ShortBuffer);
    }
    let mut page = Page { buffer, end: 0 };
    write_accounts(&mut page, day, Party::Buyer);
    write_accounts(&mut page, day, Party::Unit);
    write_accounts(&mut page, day, Party::Wires);
    write_branch(&mut page, day.branch());
    Ok(page.end)
}
