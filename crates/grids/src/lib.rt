#![tactic(auto)]

// The grid screen: each unit, 0 to 63, hangs on a grid, 0 to 15, and the units of a grid together keep its limit.
ghost use Rattle.std.specs.Prelude.{◌≡◌, [], ◌∷◌, replicate};
ghost use Rattle.grids.specs.GridSets.{hangs_of, settings_of, fresh_of, ontop_of};
ghost use Rattle.grids.specs.Grids.{by_grid_lawful};
ghost use Rattle.std.proofs.Common.{rules};

use market::figures::Place;
use market::maxima::MAX_FIGURE;
use market::refusals::ScreenRefusal;
use screen::nodes::Nodes;
use screen::{NodeLimits, Screen};

// The limit of each grid in tenths, what is left of it, and the grid on which each unit hangs.
#[derive(Drop)]
pub struct GridScreen {
    grids: Nodes<15, 16>,
}

impl GridScreen {
    // At first every limit is 6,000,000 and every unit hangs on grid 0.
    pub fn new() -> GridScreen
        ensures set { settings_of result ≡ replicate 16 6000000 ∷ replicate 64 0 ∷ [] }
        ensures opened { ontop_of result ≡ fresh_of result }
    {
        GridScreen {
            grids: Nodes::new(),
        }
    }
}

impl Screen for GridScreen {
    ghost fresh = { fresh_of };

    ghost ontop = { ontop_of };

    ghost settings = { settings_of };

    ghost fresh_lawful = { λ s. by_grid_lawful s.grids.limits (hangs_of s) };

    ghost ontop_lawful = { λ s. by_grid_lawful s.grids.left (hangs_of s) };

    ghost decided = { Prim.search rules };

    fn reset(&mut self) {
        self.grids.reset();
    }

    fn room(&self, place: u32) -> u32 {
        let Ok(place) = Place::try_from(place) else {
            return 0;
        };
        let grid = self.grids.node_of(place);
        self.grids.left[usize::from(grid.number)].min(MAX_FIGURE)
    }

    fn take(&mut self, place: u32, quantity: u32) -> Result<(), ScreenRefusal> {
        let at = Place::try_from(place)?;
        if quantity > self.room(place) {
            return Err(ScreenRefusal::AboveRoom { place });
        }
        let grid = self.grids.node_of(at);
        self.grids.left[usize::from(grid.number)] -= quantity;
        Ok(())
    }
}

impl NodeLimits for GridScreen {
    ghost nodes = { λ _. 16 };

    ghost layers = { λ _. 0 };

    fn set_limit(&mut self, node: u32, limit: u32) -> Result<(), ScreenRefusal> {
        self.grids.set_limit(node, limit)
    }

    fn hang(&mut self, unit: u32, node: u32) -> Result<(), ScreenRefusal> {
        self.grids.hang(unit, node)
    }
}
