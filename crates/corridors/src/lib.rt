#![tactic(auto)]

// The screen with a tree of corridors: all units below a corridor, at any depth, together keep its limit.
ghost use Rattle.std.specs.Prelude.{◌≡◌, [], ◌∷◌, replicate};
ghost use Rattle.corridors.specs.ByCorridor.{corridor_count};
ghost use Rattle.corridors.specs.CorridorSets.{settings_of, fresh_of, ontop_of, fresh_is_lawful, ontop_is_lawful, settings_decide};
ghost use Rattle.corridors.specs.Trees.{Worked};

use market::figures::Place;
use market::refusals::ScreenRefusal;
use screen::nodes::Nodes;
use screen::{NodeLimits, NodeParents, Screen};
use tree::Tree;

mod tree;

// Corridors 0 to 31, each with a limit and, from 1, a parent of lower number; 0 is the root. Each unit hangs on a corridor.
#[derive(Drop)]
pub struct CorridorScreen {
    corridors: Nodes<31, 32>,
    tree: Tree,
}

impl CorridorScreen {
    // At first every limit is 6,000,000, every parent is the root and every unit hangs on it.
    pub fn new() -> CorridorScreen
        ensures set { settings_of result ≡ (replicate 32 6000000 ∷ replicate 64 0 ∷ replicate 32 0 ∷ []) }
        ensures opened { ontop_of result ≡ fresh_of result }
        ensures worked { Worked }
    {
        CorridorScreen {
            corridors: Nodes::new(),
            tree: Tree::new(),
        }
    }
}

impl Screen for CorridorScreen {
    ghost fresh = { fresh_of };

    ghost ontop = { ontop_of };

    ghost settings = { settings_of };

    ghost fresh_lawful = { fresh_is_lawful };

    ghost ontop_lawful = { ontop_is_lawful };

    ghost decided = { settings_decide };

    fn reset(&mut self) {
        self.corridors.reset();
    }

    fn room(&self, place: u32) -> u32 {
        let Ok(place) = Place::try_from(place) else {
            return 0;
        };
        let corridor = self.corridors.node_of(place);
        self.tree.least_left(&self.corridors.left, corridor)
    }

    fn take(&mut self, place: u32, quantity: u32) -> Result<(), ScreenRefusal> {
        let at = Place::try_from(place)?;
        if quantity > self.room(place) {
            return Err(ScreenRefusal::AboveRoom { place });
        }
        let corridor = self.corridors.node_of(at);
        self.tree
            .lower_left(&mut self.corridors.left, corridor, quantity);
        Ok(())
    }
}

impl NodeLimits for CorridorScreen {
    ghost nodes = { λ _. corridor_count };

    ghost layers = { λ _. 0 };

    fn set_limit(&mut self, node: u32, limit: u32) -> Result<(), ScreenRefusal> {
        self.corridors.set_limit(node, limit)
    }

    fn hang(&mut self, unit: u32, node: u32) -> Result<(), ScreenRefusal> {
        self.corridors.hang(unit, node)
    }
}

impl NodeParents for CorridorScreen {
    fn set_parent(&mut self, node: u32, parent: u32) -> Result<(), ScreenRefusal> {
        self.tree.set_parent(node, parent)?;
        self.reset(); // what was taken counted on the tree as it was
        Ok(())
    }
}
