// The sellers' side of a segment: its groups in order of level.
ghost use Rattle.std.specs.Prelude.{◌≡◌, ℕ, suc, ◌+◌, ◌-◌, ◌*◌, ◌^◌, ◌<◌, ◌≤◌, length};
ghost use Rattle.market.specs.Maxima.{place_count};
ghost use Rattle.outcome.specs.Entries.{Entries};
ghost use Rattle.outcome.specs.Groups.{total};
ghost use Rattle.outcome.specs.Outcome.{sweep};
ghost use Rattle.clearing.specs.Awarded.{award_of};
ghost use Rattle.clearing.specs.Steps.{Took, SameScreen};
ghost use Rattle.clearing.specs.Sequence.{SequenceFrom, swept_from};

use super::drawing::Drawing;
use super::sequence::group_end;
use market::tiers::Tier;
use screen::Screen;

// What a segment took: the quantity and the price, and the tiers above it.
#[derive(Clone, Copy)]
pub(crate) struct Taken<'t> {
    pub(crate) quantity: u32,
    pub(crate) price: u32,
    pub(crate) above: &'t [Tier],
}

impl<S: Screen> Drawing<'_, S> {
    // Works the tiers that land at or below the bid, group by group.
    pub(crate) fn work_levels<'t>(&mut self, ranked: &'t [Tier], bid: u32, want: u32) -> Taken<'t>
        requires few { length ranked.now ≤ place_count }
        requires fits { total (award_of self.old.awards) + want < 2 ^ 32 }
        ensures few { length result.above.now ≤ length ranked.now }
        ensures taken { Took want result.quantity (award_of self.old.awards) (award_of self.new.awards) }
        ensures swept { (e : Entries) (low : ℕ) → SequenceFrom e low ranked.now → low ≤ 8 * suc bid → SequenceFrom e (8 * suc bid) result.above.now × (sweep (S.fresh self.old.screen.now) e (total (award_of self.old.awards) + want) low (8 * suc bid - low) (swept_from (award_of self.old.awards) 0) ≡ swept_from (award_of self.new.awards) result.price) }
        ensures same { SameScreen S.settings self.old.screen self.new.screen }
    {
        let mut above = ranked;
        let mut quantity: u32 = 0;
        let mut price: u32 = 0;
        while let Some(lowest) = above.first() {
            let landed = lowest.landed.fen();
            if bid < landed {
                break;
            }
            let (group, rest) = above.split_at(group_end(above));
            let more = self.work_group(group, want - quantity);
            if more > 0 {
                price = landed;
            }
            quantity += more;
            above = rest;
        }
        Taken {
            quantity,
            price,
            above,
        }
    }
}
