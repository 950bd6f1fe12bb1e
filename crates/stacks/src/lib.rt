#![tactic(auto)]

// Stacks over all three bases as one kind of value, so that one list can hold screens of every kind.
ghost use Rattle.std.specs.Prelude.{◌≡◌, true, false};
ghost use Rattle.std.specs.Option.{option_map};
ghost use Rattle.market.specs.Rows.{topmost};
ghost use Rattle.screen.specs.Meaning.{limit_rows, hang_rows, parent_rows, cap_rows, ceiling_rows, answer_of};
ghost use Rattle.shapes.specs.Setters.{answer_at, was_set, with_setting_at};
ghost use Rattle.stacks.specs.Kinds.{kind_of, layers_of, any_of, nodes_of, limits_of, hangs_of, parents_of, caps_of, ceiling_of};
ghost use Rattle.stacks.specs.KindLaws.{any_fresh_lawful, any_ontop_lawful, any_decided};

use corridors::CorridorScreen;
use grids::GridScreen;
use market::refusals::ScreenRefusal;
use screen::{NodeLimits, NodeParents, OpenScreen, Screen};
use shapes::Layered;

// A stack over one of three bases: one with nothing to set, one with limits, one with limits and parents.
// Each variant holds a stack of another type, so a call is passed on variant by variant: a function may not hand out a `&dyn Screen`.
#[derive(Drop)]
pub enum AnyOf<O, G, C> {
    Open(Layered<O>),
    Grid(Layered<G>),
    Corridor(Layered<C>),
}

// A stack over one of the market's three bases.
pub type AnyScreen = AnyOf<OpenScreen, GridScreen, CorridorScreen>;

// A setter answers None where the screen has nothing of the kind, and leaves it as it was. What is set forgets what was taken.
impl<O: Screen, G: NodeLimits, C: NodeParents> AnyOf<O, G, C> {
    // Sets the limit of a grid or corridor. Declined with 4 where there is none of this number and with 5 above 6,000,000.
    pub fn set_limit(&mut self, node: u32, limit: u32) -> Option<Result<(), ScreenRefusal>>
        ensures answer { option_map answer_of result ≡ answer_at (limits_of G.NodeLimits.own C.NodeLimits.own self.old) (topmost (limit_rows (nodes_of G.NodeLimits.own C.NodeLimits.own self.old) node limit)) }
        ensures set { was_set result ≡ true → (any_of O.Screen G.Screen C.Screen).settings self.new ≡ with_setting_at ((any_of O.Screen G.Screen C.Screen).settings self.old) (limits_of G.NodeLimits.own C.NodeLimits.own self.old) node limit }
        ensures opened { was_set result ≡ true → (any_of O.Screen G.Screen C.Screen).ontop self.new ≡ (any_of O.Screen G.Screen C.Screen).fresh self.new }
        ensures shape { (kind_of self.new ≡ kind_of self.old) × (layers_of self.new ≡ layers_of self.old) }
        ensures declined { was_set result ≡ false → self.new ≡ self.old }
    {
        match self {
            AnyOf::Open(_) => None,
            AnyOf::Grid(stack) => Some(stack.set_limit(node, limit)),
            AnyOf::Corridor(stack) => Some(stack.set_limit(node, limit)),
        }
    }

    // Hangs a unit on a grid or corridor. Declined with 4 where there is no such unit, or else none such.
    pub fn hang(&mut self, unit: u32, node: u32) -> Option<Result<(), ScreenRefusal>>
        ensures answer { option_map answer_of result ≡ answer_at (hangs_of G.NodeLimits.own C.NodeLimits.own self.old) (topmost (hang_rows (nodes_of G.NodeLimits.own C.NodeLimits.own self.old) unit node)) }
        ensures set { was_set result ≡ true → (any_of O.Screen G.Screen C.Screen).settings self.new ≡ with_setting_at ((any_of O.Screen G.Screen C.Screen).settings self.old) (hangs_of G.NodeLimits.own C.NodeLimits.own self.old) unit node }
        ensures opened { was_set result ≡ true → (any_of O.Screen G.Screen C.Screen).ontop self.new ≡ (any_of O.Screen G.Screen C.Screen).fresh self.new }
        ensures shape { (kind_of self.new ≡ kind_of self.old) × (layers_of self.new ≡ layers_of self.old) }
        ensures declined { was_set result ≡ false → self.new ≡ self.old }
    {
        match self {
            AnyOf::Open(_) => None,
            AnyOf::Grid(stack) => Some(stack.hang(unit, node)),
            AnyOf::Corridor(stack) => Some(stack.hang(unit, node)),
        }
    }

    // Sets the parent of a corridor. Declined with 4 where there is no such corridor or parent, and with 16 where the parent is not lower.
    pub fn set_parent(&mut self, node: u32, parent: u32) -> Option<Result<(), ScreenRefusal>>
        ensures answer { option_map answer_of result ≡ answer_at (parents_of C.NodeLimits.own self.old) (topmost (parent_rows (nodes_of G.NodeLimits.own C.NodeLimits.own self.old) node parent)) }
        ensures set { was_set result ≡ true → (any_of O.Screen G.Screen C.Screen).settings self.new ≡ with_setting_at ((any_of O.Screen G.Screen C.Screen).settings self.old) (parents_of C.NodeLimits.own self.old) node parent }
        ensures opened { was_set result ≡ true → (any_of O.Screen G.Screen C.Screen).ontop self.new ≡ (any_of O.Screen G.Screen C.Screen).fresh self.new }
        ensures shape { (kind_of self.new ≡ kind_of self.old) × (layers_of self.new ≡ layers_of self.old) }
        ensures declined { was_set result ≡ false → self.new ≡ self.old }
    {
        match self {
            AnyOf::Open(_) | AnyOf::Grid(_) => None,
            AnyOf::Corridor(stack) => Some(stack.set_parent(node, parent)),
        }
    }

    // Sets the cap of a place. Declined with 4 where there is no such place and with 5 above 20,000.
    pub fn set_cap(&mut self, place: u32, quantity: u32) -> Option<Result<(), ScreenRefusal>>
        ensures answer { option_map answer_of result ≡ answer_at (caps_of self.old) (topmost (cap_rows place quantity)) }
        ensures set { was_set result ≡ true → (any_of O.Screen G.Screen C.Screen).settings self.new ≡ with_setting_at ((any_of O.Screen G.Screen C.Screen).settings self.old) (caps_of self.old) place quantity }
        ensures opened { was_set result ≡ true → (any_of O.Screen G.Screen C.Screen).ontop self.new ≡ (any_of O.Screen G.Screen C.Screen).fresh self.new }
        ensures shape { (kind_of self.new ≡ kind_of self.old) × (layers_of self.new ≡ layers_of self.old) }
        ensures declined { was_set result ≡ false → self.new ≡ self.old }
    {
        match self {
            AnyOf::Open(stack) => stack.set_cap(place, quantity),
            AnyOf::Grid(stack) => stack.set_cap(place, quantity),
            AnyOf::Corridor(stack) => stack.set_cap(place, quantity),
        }
    }

    // Sets the ceiling. Declined with 5 above 6,000,000.
    pub fn set_ceiling(&mut self, limit: u32) -> Option<Result<(), ScreenRefusal>>
        ensures answer { option_map answer_of result ≡ answer_at (ceiling_of self.old) (topmost (ceiling_rows limit)) }
        ensures set { was_set result ≡ true → (any_of O.Screen G.Screen C.Screen).settings self.new ≡ with_setting_at ((any_of O.Screen G.Screen C.Screen).settings self.old) (ceiling_of self.old) 0 limit }
        ensures opened { was_set result ≡ true → (any_of O.Screen G.Screen C.Screen).ontop self.new ≡ (any_of O.Screen G.Screen C.Screen).fresh self.new }
        ensures shape { (kind_of self.new ≡ kind_of self.old) × (layers_of self.new ≡ layers_of self.old) }
        ensures declined { was_set result ≡ false → self.new ≡ self.old }
    {
        match self {
            AnyOf::Open(stack) => stack.set_ceiling(limit),
            AnyOf::Grid(stack) => stack.set_ceiling(limit),
            AnyOf::Corridor(stack) => stack.set_ceiling(limit),
        }
    }
}

// The first two tables of the settings name the kind of base and the shape of the layers.
impl<O: Screen, G: Screen, C: Screen> Screen for AnyOf<O, G, C> {
    ghost fresh = { (any_of O.Screen G.Screen C.Screen).fresh };

    ghost ontop = { (any_of O.Screen G.Screen C.Screen).ontop };

    ghost settings = { (any_of O.Screen G.Screen C.Screen).settings };

    ghost fresh_lawful = { any_fresh_lawful O.Screen.own G.Screen.own C.Screen.own O.Screen.fresh_lawful G.Screen.fresh_lawful C.Screen.fresh_lawful };

    ghost ontop_lawful = { any_ontop_lawful O.Screen.own G.Screen.own C.Screen.own O.Screen.ontop_lawful G.Screen.ontop_lawful C.Screen.ontop_lawful };

    ghost decided = { any_decided O.Screen.own G.Screen.own C.Screen.own O.Screen.decided G.Screen.decided C.Screen.decided };

    fn reset(&mut self) {
        match self {
            AnyOf::Open(stack) => stack.reset(),
            AnyOf::Grid(stack) => stack.reset(),
            AnyOf::Corridor(stack) => stack.reset(),
        }
    }

    fn room(&self, place: u32) -> u32 {
        match self {
            AnyOf::Open(stack) => stack.room(place),
            AnyOf::Grid(stack) => stack.room(place),
            AnyOf::Corridor(stack) => stack.room(place),
        }
    }

    fn take(&mut self, place: u32, quantity: u32) -> Result<(), ScreenRefusal> {
        match self {
            AnyOf::Open(stack) => stack.take(place, quantity),
            AnyOf::Grid(stack) => stack.take(place, quantity),
            AnyOf::Corridor(stack) => stack.take(place, quantity),
        }
    }
}
