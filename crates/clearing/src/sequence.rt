// The sellers' sequence: the tiers of a point by landed offer, then class, then place.
ghost use Rattle.std.specs.Prelude.{◌≡◌, ℕ, ◌<◌, ◌≤◌, ◌⊎◌, length, take, ◌≢◌, slice_index_or};
ghost use Rattle.market.specs.Maxima.{place_count};
ghost use Rattle.outcome.specs.View.{entries_of};
ghost use Rattle.clearing.specs.Sequence.{Sequence, Collected, sellers_of, level_of};

use market::classes::Class;
use market::figures::{Charges, Offer, Place, Tariff};
use market::ranking::put_in_rank;
use market::tiers::Tier;
use outcome::PointEntries;

// The tiers with a capacity, in rank. They stand in the front of a table of fixed length, since no call of a clearing may
// need memory; `arrayvec` would make its table of defaults, and a tier has none.
#[derive(Drop)]
pub(crate) struct RankedTiers {
    table: [Tier; 256],
    count: usize,
    ghost few: { count ≤ place_count },
}

impl RankedTiers {
    // The sellers' sequence of the entries.
    pub(crate) fn new(entries: &PointEntries) -> RankedTiers
        ensures sequence { Sequence (entries_of entries.now) (take result.count result.table) }
    {
        let mut table = [blank_tier(); 256];
        let count = collect_tiers(&entries.tiers, &mut table);
        put_in_rank(&mut table[..count]);
        RankedTiers { table, count }
    }

    pub(crate) fn tiers(&self) -> &[Tier]
        ensures tiers { result.now ≡ take self.now.count self.now.table }
        ensures few { length result.now ≤ place_count }
    {
        &self.table[..self.count]
    }
}

// A tier of no capacity, to fill the table with.
fn blank_tier() -> Tier {
    let charges = Charges {
        grid: Tariff { fen: 0 },
        branch: Tariff { fen: 0 },
    };
    Tier {
        landed: Offer { yuan: 0 }.land(charges),
        class: Class::Hydro,
        place: Place { number: 0 },
        capacity: 0,
    }
}

// Collects the tiers with a capacity, by place, into the front of `ranked`, and answers how many there are.
fn collect_tiers(tiers: &[Option<Tier>; 256], ranked: &mut [Tier; 256]) -> usize
    ensures within { result ≤ place_count }
    ensures collected { Collected (sellers_of tiers.now) place_count (take result ranked.new) }
{
    let mut count: usize = 0;
    for (place, slot) in tiers.iter().enumerate() {
        if let Some(tier) = slot {
            if 0 < tier.capacity {
                ranked[count] = Tier {
                    landed: tier.landed,
                    class: tier.class,
                    place: Place {
                        number: place as u8,
                    },
                    capacity: tier.capacity,
                };
                count += 1;
            }
        }
    }
    count
}

// The level of a tier: one number, as the definitions have it, that tiers of one landed offer and class share.
fn level_of(tier: &Tier) -> u32
    ensures { result ≡ level_of tier.now }
{
    let class = u8::from(tier.class);
    8 * tier.landed.fen() + u32::from(class)
}

// How many tiers, from the first on, have its landed offer and class.
pub(crate) fn group_end(ranked: &[Tier]) -> usize
    requires { 0 < length ranked.now }
    ensures within { (0 < result) × (result ≤ length ranked.now) }
    ensures same { (k : ℕ) (d : Tier) → k < result → level_of (slice_index_or ranked.now k d) ≡ level_of (slice_index_or ranked.now 0 d) }
    ensures ends { (result ≡ length ranked.now) ⊎ ((d : Tier) → level_of (slice_index_or ranked.now result d) ≢ level_of (slice_index_or ranked.now 0 d)) }
{
    let level = level_of(&ranked[0]);
    ranked
        .iter()
        .position(|tier| level_of(tier) != level)
        .unwrap_or(ranked.len())
}
