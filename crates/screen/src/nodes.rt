// The tables of a base whose units hang on nodes, which are its grids or corridors.
ghost use Rattle.std.specs.Prelude.{◌≡◌, ℕ, ◌+◌, ◌/◌, ◌≤◌, true, false, replicate, is_ok, slice_index, slice_set};
ghost use Rattle.market.specs.Maxima.{unit_count, bands_of_unit, max_limit};
ghost use Rattle.market.specs.Rows.{topmost};
ghost use Rattle.screen.specs.Meaning.{limit_rows, hang_rows, answer_of};
ghost use Rattle.screen.specs.Numbers.{numbers};

use market::figures::{Numbered, Place, Unit};
use market::maxima::MAX_LIMIT;
use market::refusals::ScreenRefusal;

// The limit of each of N nodes in tenths, what is left of it on top of what was taken, and the node, 0 to LAST, on which each unit hangs.
// A const argument takes no sum, so that N, which is LAST + 1, is given too.
#[derive(Drop)]
pub struct Nodes<const LAST: u8, const N: usize> {
    pub limits: [u32; N],
    pub left: [u32; N],
    pub hangs: [Numbered<LAST>; 64],
    ghost small: { (n : ℕ) → slice_index limits n ≤ max_limit },
}

impl<const LAST: u8, const N: usize> Nodes<LAST, N> {
    // At first every limit is 6,000,000 and every unit hangs on node 0.
    pub fn new() -> Nodes<LAST, N>
        ensures limits { result.limits ≡ replicate N max_limit }
        ensures left { result.left ≡ result.limits }
        ensures hangs { numbers result.hangs ≡ replicate unit_count 0 }
    {
        Nodes {
            limits: [MAX_LIMIT; N],
            left: [MAX_LIMIT; N],
            hangs: [Numbered { number: 0 }; 64],
        }
    }

    // Forgets what was taken.
    pub fn reset(&mut self)
        ensures limits { self.new.limits ≡ self.old.limits }
        ensures left { self.new.left ≡ self.old.limits }
        ensures hangs { self.new.hangs ≡ self.old.hangs }
    {
        self.left = self.limits;
    }

    // The node on which the unit of the place hangs.
    pub fn node_of(&self, place: Place) -> Numbered<LAST>
        ensures { result.number ≡ slice_index (numbers self.now.hangs) (place.number / bands_of_unit) }
    {
        self.hangs[usize::from(place.number / 4)]
    }

    // Sets the limit of a node and forgets what was taken. Declined with 4 where there is none of this number and with 5 above 6,000,000.
    pub fn set_limit(&mut self, node: u32, limit: u32) -> Result<(), ScreenRefusal>
        ensures answer { answer_of result ≡ topmost (limit_rows N node limit) }
        ensures set { is_ok result ≡ true → self.new.limits ≡ slice_set self.old.limits node limit }
        ensures opened { is_ok result ≡ true → self.new.left ≡ self.new.limits }
        ensures hangs { self.new.hangs ≡ self.old.hangs }
        ensures declined { is_ok result ≡ false → self.new ≡ self.old }
    {
        if node as usize >= N {
            return Err(ScreenRefusal::OutOfRange { name: node });
        }
        if limit > MAX_LIMIT {
            return Err(ScreenRefusal::AboveMaximum { name: node });
        }
        self.limits[node as usize] = limit;
        self.reset();
        Ok(())
    }

    // Hangs a unit on a node and forgets what was taken. Declined with 4 where there is no such unit, or else no such node.
    pub fn hang(&mut self, unit: u32, node: u32) -> Result<(), ScreenRefusal>
        ensures answer { answer_of result ≡ topmost (hang_rows (LAST + 1) unit node) }
        ensures set { is_ok result ≡ true → numbers self.new.hangs ≡ slice_set (numbers self.old.hangs) unit node }
        ensures opened { is_ok result ≡ true → self.new.left ≡ self.new.limits }
        ensures limits { self.new.limits ≡ self.old.limits }
        ensures declined { is_ok result ≡ false → self.new ≡ self.old }
    {
        let at = Unit::try_from(unit)?;
        let node = Numbered::try_from(node)?;
        self.hangs[usize::from(at.number)] = node;
        self.reset();
        Ok(())
    }
}
