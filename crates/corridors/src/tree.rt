// The tree of corridors, and walks up it: parents are of lower number, so each corridor above is passed once.
ghost use Rattle.std.specs.Prelude.{◌≡◌, ℕ, ◌+◌, ◌≤◌, if◌then◌else◌, true, false, is_ok, replicate, slice_index, slice_set};
ghost use Rattle.market.specs.Maxima.{max_figure};
ghost use Rattle.market.specs.Rows.{topmost};
ghost use Rattle.screen.specs.Meaning.{parent_rows, answer_of};
ghost use Rattle.screen.specs.Numbers.{numbers};
ghost use Rattle.corridors.specs.ByCorridor.{corridor_count, below};
ghost use Rattle.corridors.specs.Trees.{Falling, LeftAbove};

use market::figures::Numbered;
use market::maxima::MAX_FIGURE;
use market::refusals::ScreenRefusal;

// A corridor, 0 to 31; 0 is the root.
pub(super) type Corridor = Numbered<31>;

// The parent of each corridor, of lower number, and 0 of the root. No call of a screen may need memory, so the parents lie in one table by number.
#[derive(Drop)]
pub(super) struct Tree {
    pub(super) parents: [Corridor; 32],
    ghost root: { slice_index (numbers parents) 0 ≡ 0 },
    ghost falling: { Falling (numbers parents) },
}

impl Tree {
    // At first every parent is the root.
    pub(super) fn new() -> Tree
        ensures { numbers result.parents ≡ replicate corridor_count 0 }
    {
        Tree {
            parents: [Corridor { number: 0 }; 32],
        }
    }

    // The parent of a corridor.
    fn parent(&self, corridor: Corridor) -> Corridor
        ensures { result.number ≡ slice_index (numbers self.now.parents) corridor.number }
    {
        self.parents[usize::from(corridor.number)]
    }

    // Sets the parent of a corridor. Declined with 4 where there is no such corridor or parent, and with 16 where the parent is not lower.
    pub(super) fn set_parent(&mut self, node: u32, parent: u32) -> Result<(), ScreenRefusal>
        ensures answer { answer_of result ≡ topmost (parent_rows corridor_count node parent) }
        ensures set { is_ok result ≡ true → numbers self.new.parents ≡ slice_set (numbers self.old.parents) node parent }
        ensures declined { is_ok result ≡ false → self.new ≡ self.old }
    {
        let corridor = Corridor::try_from(node)?;
        let above = Corridor::try_from(parent)?;
        // 0 may be the parent of every corridor, its own too.
        if above.number > 0 && above.number >= corridor.number {
            return Err(ScreenRefusal::ParentNotLower { corridor: node });
        }
        self.parents[usize::from(corridor.number)] = above;
        Ok(())
    }

    // The least that is left of a corridor and of those above it, at most 20,000.
    pub(super) fn least_left(&self, left: &[u32; 32], corridor: Corridor) -> u32
        ensures few { result ≤ max_figure }
        ensures kept { LeftAbove left.now (numbers self.now.parents) corridor.number result }
        ensures most { (q : ℕ) → q ≤ max_figure → LeftAbove left.now (numbers self.now.parents) corridor.number q → q ≤ result }
    {
        let mut at = corridor;
        let mut least = MAX_FIGURE;
        while at.number > 0 {
            least = left[usize::from(at.number)].min(least);
            at = self.parent(at);
        }
        left[0].min(least)
    }

    // Lowers by the quantity what is left of a corridor and of each above it, and of no other.
    pub(super) fn lower_left(&self, left: &mut [u32; 32], corridor: Corridor, quantity: u32)
        requires { LeftAbove left.old (numbers self.now.parents) corridor.number quantity }
        ensures { (c : ℕ) → slice_index left.new c + (if below (numbers self.now.parents) corridor_count corridor.number c then quantity else 0) ≡ slice_index left.old c }
    {
        let mut next = corridor;
        while next.number > 0 {
            left[usize::from(next.number)] -= quantity;
            next = self.parent(next);
        }
        left[0] -= quantity;
    }
}
