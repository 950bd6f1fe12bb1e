// A point cleared over any screen: every segment, from the lowest bid to the highest.
ghost use Rattle.std.specs.Prelude.{◌≡◌, ℕ, suc, ◌≤◌, true, length, replicate};
ghost use Rattle.lawful.specs.Lawful.{above};
ghost use Rattle.market.specs.Maxima.{grid_count, place_count, max_price};
ghost use Rattle.outcome.specs.Laws.{Worthy, SoundSegment, SoundSums};
ghost use Rattle.outcome.specs.Entries.{some_bids};
ghost use Rattle.outcome.specs.Outcome.{outcome};
ghost use Rattle.outcome.specs.View.{entries_of};
ghost use Rattle.outcome.specs.Worked.{WorkedTies};
ghost use Rattle.clearing.specs.Steps.{SameScreen};
ghost use Rattle.clearing.specs.Declaration.{Declares, blank_segment};
ghost use Rattle.clearing.specs.Progress.{Reached};

use super::bids::next_bid;
use super::drawing::Drawing;
use super::needs::{open_needs, shares_among, with_shares};
use super::points::{Cleared, Segment};
use super::sequence::RankedTiers;
use market::tiers::Tier;
use outcome::PointEntries;
use screen::Screen;

// What is declared before the first segment: nothing is awarded or got.
fn blank() -> Cleared
    ensures awards { result.awards ≡ replicate place_count 0 }
    ensures got { result.got ≡ replicate grid_count 0 }
    ensures segments { (result.segments ≡ replicate grid_count blank_segment) × (result.count ≡ 0) }
{
    let none = Segment {
        bid: 0,
        quantity: 0,
        price: 0,
        shares: [0; 16],
    };
    Cleared {
        awards: [0; 256],
        got: [0; 16],
        segments: [none; 16],
        count: 0,
    }
}

// Works the segment at this bid and adds it to what is declared. The tiers above the segment.
fn work_segment<'t, S: Screen>(
    entries: &PointEntries,
    ranked: &'t [Tier],
    bid: u32,
    drawing: &mut Drawing<'_, S>,
    cleared: &mut Cleared,
) -> &'t [Tier]
    requires few { length ranked.now ≤ place_count }
    requires bidden { some_bids (entries_of entries.now) bid ≡ true }
    requires reached { Reached (S.fresh drawing.old.screen.now) (entries_of entries.now) bid ranked.now cleared.old }
    requires awards { cleared.old.awards ≡ drawing.old.awards }
    ensures few { length result.now ≤ length ranked.now }
    ensures reached { Reached (S.fresh drawing.old.screen.now) (entries_of entries.now) (suc bid) result.now cleared.new }
    ensures awards { cleared.new.awards ≡ drawing.new.awards }
    ensures same { SameScreen S.settings drawing.old.screen drawing.new.screen }
{
    let wants = open_needs(&entries.bids, &cleared.got, bid);
    let taken = drawing.work_levels(ranked, bid, wants.iter().sum());
    let shares = shares_among(taken.quantity, &wants);
    cleared.awards = drawing.awards;
    cleared.got = with_shares(&cleared.got, &shares);
    cleared.segments[cleared.count] = Segment {
        bid,
        quantity: taken.quantity,
        price: taken.price,
        shares,
    };
    cleared.count += 1;
    taken.above
}

// Clears a point: resets the screen, works every segment through room and take, and leaves the awards taken in the screen.
pub fn clear<S: Screen>(entries: &PointEntries, screen: &mut S) -> Cleared
    ensures declared { Declares (entries_of entries.now) (suc max_price) (outcome (S.fresh screen.old) (entries_of entries.now)) result }
    ensures opened { S.ontop screen.new ≡ above (outcome (S.fresh screen.old) (entries_of entries.now)).award (S.fresh screen.old) }
    ensures set { S.settings screen.new ≡ S.settings screen.old }
    ensures worthy { Worthy (S.fresh screen.old) (entries_of entries.now) (outcome (S.fresh screen.old) (entries_of entries.now)) }
    ensures segments { (b : ℕ) → some_bids (entries_of entries.now) b ≡ true → SoundSegment (entries_of entries.now) (outcome (S.fresh screen.old) (entries_of entries.now)) b }
    ensures sums { SoundSums (entries_of entries.now) (outcome (S.fresh screen.old) (entries_of entries.now)) }
    ensures worked { WorkedTies }
{
    let sequence = RankedTiers::new(entries);
    let mut above = sequence.tiers();
    let mut drawing = Drawing::start(screen);
    let mut cleared = blank();
    let mut from: u32 = 0;
    while let Some(bid) = next_bid(entries, from) {
        above = work_segment(entries, above, bid, &mut drawing, &mut cleared);
        from = bid + 1;
    }
    cleared
}
