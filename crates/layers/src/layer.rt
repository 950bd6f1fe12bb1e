// A layer: limits over any screen, which cut both of its sets of awards.
ghost use Rattle.std.specs.Prelude.{◌≡◌, suc, true, false, ◌∷◌, is_ok};
ghost use Rattle.layers.specs.Stack.{under};
ghost use Rattle.layers.specs.Decided.{decided_under};

use crate::cut::Cut;
use market::figures::Place;
use market::refusals::ScreenRefusal;
use screen::{NodeLimits, NodeParents, Screen};

// Limits, and what is left of them on top of what was taken.
#[derive(Drop)]
pub struct Table<T> {
    pub(super) limits: T,
    pub(super) left: T,
}

impl<T: Cut> Table<T> {
    // Forgets what was taken.
    pub(super) fn reset(&mut self)
        ensures limits { self.new.limits ≡ self.old.limits }
        ensures left { self.new.left ≡ self.old.limits }
    {
        self.left = self.limits;
    }

    // Puts the limits over a screen. What was taken is forgotten, in the screen below too.
    pub fn over<S: Screen>(self, below: S) -> Layer<S, T>
        ensures set { (under T.Cut.own S.Screen).settings result ≡ T.Cut.row self.limits ∷ S.Screen.settings below }
        ensures opened { (under T.Cut.own S.Screen).ontop result ≡ (under T.Cut.own S.Screen).fresh result }
        ensures below { S.Screen.ontop result.below ≡ S.Screen.fresh below }
    {
        let mut layer = Layer { below, table: self };
        layer.reset();
        layer
    }
}

// A screen under limits.
#[derive(Drop)]
pub struct Layer<S, T> {
    pub(super) below: S,
    pub(super) table: Table<T>,
}

impl<S: Screen, T: Cut> Layer<S, T> {
    // Puts limits at their maxima over a screen. What was taken is forgotten, in the screen below too.
    pub fn over(below: S) -> Layer<S, T>
        ensures set { (under T.Cut.own S.Screen).settings result ≡ T.Cut.widest ∷ S.Screen.settings below }
        ensures opened { (under T.Cut.own S.Screen).ontop result ≡ (under T.Cut.own S.Screen).fresh result }
        ensures below { S.Screen.ontop result.below ≡ S.Screen.fresh below }
    {
        let limits = T::at_maximum();
        let table = Table {
            limits,
            left: limits,
        };
        table.over(below)
    }

    // Takes the layer off: the screen below as it is, and the limits, which can go over it again.
    pub fn lift(self) -> (S, Table<T>)
        ensures below { result.0 ≡ self.below }
        ensures table { result.1 ≡ self.table }
    {
        let Layer { below, table } = self;
        (below, table)
    }

    // The screen below, to look at.
    pub fn below(&self) -> &S
        ensures { result.now ≡ self.now.below }
    {
        &self.below
    }
}

impl<S: Screen, T: Cut> Screen for Layer<S, T> {
    ghost fresh = { (under T.Cut.own S.Screen).fresh };

    ghost ontop = { (under T.Cut.own S.Screen).ontop };

    ghost settings = { (under T.Cut.own S.Screen).settings };

    ghost fresh_lawful = { λ s. T.Cut.keeps_laws s.table.limits (S.Screen.fresh s.below) (S.Screen.fresh_lawful s.below) };

    ghost ontop_lawful = { λ s. T.Cut.keeps_laws s.table.left (S.Screen.ontop s.below) (S.Screen.ontop_lawful s.below) };

    ghost decided = { decided_under T.Cut.own S.Screen.own T.Cut.row_decides S.Screen.decided };

    // The screen below forgets too what was taken.
    fn reset(&mut self)
        ensures opened { (under T.Cut.own S.Screen).ontop self.new ≡ (under T.Cut.own S.Screen).fresh self.old }
        ensures set { (under T.Cut.own S.Screen).settings self.new ≡ (under T.Cut.own S.Screen).settings self.old }
        ensures whole { (under T.Cut.own S.Screen).ontop self.new ≡ (under T.Cut.own S.Screen).fresh self.new }
        ensures below { S.Screen.ontop self.new.below ≡ S.Screen.fresh self.old.below }
    {
        self.table.reset();
        self.below.reset();
    }

    fn room(&self, place: u32) -> u32 {
        let Ok(at) = Place::try_from(place) else {
            return 0;
        };
        self.table.left.most(at).min(self.below.room(place))
    }

    fn take(&mut self, place: u32, quantity: u32) -> Result<(), ScreenRefusal> {
        let at = Place::try_from(place)?;
        if quantity > self.table.left.most(at) {
            return Err(ScreenRefusal::AboveRoom { place });
        }
        self.below.take(place, quantity)?;
        self.table.left.lower(at, quantity);
        Ok(())
    }
}

// The base is set through the layer, which then forgets too what was taken.
impl<S: NodeLimits, T: Cut> NodeLimits for Layer<S, T> {
    ghost nodes = { λ s. S.NodeLimits.nodes s.below };

    ghost layers = { λ s. suc (S.NodeLimits.layers s.below) };

    fn set_limit(&mut self, node: u32, limit: u32) -> Result<(), ScreenRefusal> {
        self.below.set_limit(node, limit)?;
        self.table.reset();
        Ok(())
    }

    fn hang(&mut self, unit: u32, node: u32) -> Result<(), ScreenRefusal> {
        self.below.hang(unit, node)?;
        self.table.reset();
        Ok(())
    }
}

impl<S: NodeParents, T: Cut> NodeParents for Layer<S, T> {
    fn set_parent(&mut self, node: u32, parent: u32) -> Result<(), ScreenRefusal> {
        self.below.set_parent(node, parent)?;
        self.table.reset();
        Ok(())
    }
}
