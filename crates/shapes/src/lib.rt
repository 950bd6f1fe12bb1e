#![tactic(auto)]

// A base screen under at most one cap and one ceiling layer, in either order.
ghost use Rattle.std.specs.Prelude.{◌≡◌, true, false, [], ◌∷◌, replicate};
ghost use Rattle.std.specs.Option.{option_map};
ghost use Rattle.market.specs.Maxima.{place_count, max_figure, max_limit};
ghost use Rattle.market.specs.Rows.{topmost};
ghost use Rattle.screen.specs.Meaning.{cap_rows, ceiling_rows, answer_of};
ghost use Rattle.shapes.specs.Setters.{answer_at, was_set, with_setting_at};
ghost use Rattle.shapes.specs.Shapes.{no_layer, caps_only, ceiling_only, caps_first, ceiling_first, shape_of, layered, base_of, before_base, caps_in, ceiling_in};
ghost use Rattle.shapes.specs.StackLaws.{layered_fresh_lawful, layered_ontop_lawful, layered_decided};

use layers::caps::CapLayer;
use layers::ceiling::CeilingLayer;
use layers::setters::{PlaceCaps, TotalCeiling};
use market::refusals::ScreenRefusal;
use screen::{NodeLimits, NodeParents, Screen};

// A base and the layers over it, the outermost named first.
// Each variant holds a screen of another type, so a call is passed on variant by variant: a function may not hand out a `&dyn Screen`.
#[derive(Drop)]
pub enum Layered<B> {
    Bare(B),
    Capped(CapLayer<B>),
    Ceiled(CeilingLayer<B>),
    CapOverCeiling(CapLayer<CeilingLayer<B>>),
    CeilingOverCap(CeilingLayer<CapLayer<B>>),
}

// New layers are at their maxima, and what was taken from the base is forgotten.
impl<B: Screen> Layered<B> {
    // A base under no layer.
    pub fn bare(mut base: B) -> Layered<B>
        ensures set { (layered B.Screen).settings result ≡ (no_layer ∷ []) ∷ B.Screen.settings base }
        ensures opened { (layered B.Screen).ontop result ≡ (layered B.Screen).fresh result }
    {
        base.reset();
        Layered::Bare(base)
    }

    // A base under caps of 20,000.
    pub fn capped(base: B) -> Layered<B>
        ensures set { (layered B.Screen).settings result ≡ (caps_only ∷ []) ∷ replicate place_count max_figure ∷ B.Screen.settings base }
        ensures opened { (layered B.Screen).ontop result ≡ (layered B.Screen).fresh result }
    {
        Layered::Capped(CapLayer::over(base))
    }

    // A base under a ceiling of 6,000,000.
    pub fn ceiled(base: B) -> Layered<B>
        ensures set { (layered B.Screen).settings result ≡ (ceiling_only ∷ []) ∷ (max_limit ∷ []) ∷ B.Screen.settings base }
        ensures opened { (layered B.Screen).ontop result ≡ (layered B.Screen).fresh result }
    {
        Layered::Ceiled(CeilingLayer::over(base))
    }

    // A base under a ceiling of 6,000,000, and over both caps of 20,000.
    pub fn cap_over_ceiling(base: B) -> Layered<B>
        ensures set { (layered B.Screen).settings result ≡ (caps_first ∷ []) ∷ replicate place_count max_figure ∷ (max_limit ∷ []) ∷ B.Screen.settings base }
        ensures opened { (layered B.Screen).ontop result ≡ (layered B.Screen).fresh result }
    {
        Layered::CapOverCeiling(CapLayer::over(CeilingLayer::over(base)))
    }

    // A base under caps of 20,000, and over both a ceiling of 6,000,000.
    pub fn ceiling_over_cap(base: B) -> Layered<B>
        ensures set { (layered B.Screen).settings result ≡ (ceiling_first ∷ []) ∷ (max_limit ∷ []) ∷ replicate place_count max_figure ∷ B.Screen.settings base }
        ensures opened { (layered B.Screen).ontop result ≡ (layered B.Screen).fresh result }
    {
        Layered::CeilingOverCap(CeilingLayer::over(CapLayer::over(base)))
    }

    // Sets the cap of a place and forgets what was taken. None where there are no caps.
    pub fn set_cap(&mut self, place: u32, quantity: u32) -> Option<Result<(), ScreenRefusal>>
        ensures answer { option_map answer_of result ≡ answer_at (caps_in self.old) (topmost (cap_rows place quantity)) }
        ensures set { was_set result ≡ true → (layered B.Screen).settings self.new ≡ with_setting_at ((layered B.Screen).settings self.old) (caps_in self.old) place quantity }
        ensures opened { was_set result ≡ true → (layered B.Screen).ontop self.new ≡ (layered B.Screen).fresh self.new }
        ensures shape { shape_of self.new ≡ shape_of self.old }
        ensures declined { was_set result ≡ false → self.new ≡ self.old }
    {
        match self {
            Layered::Bare(_) | Layered::Ceiled(_) => None,
            Layered::Capped(screen) => Some(screen.set_cap(place, quantity)),
            Layered::CapOverCeiling(screen) => Some(screen.set_cap(place, quantity)),
            Layered::CeilingOverCap(screen) => Some(screen.set_cap(place, quantity)),
        }
    }

    // Sets the ceiling and forgets what was taken. None where there is no ceiling.
    pub fn set_ceiling(&mut self, limit: u32) -> Option<Result<(), ScreenRefusal>>
        ensures answer { option_map answer_of result ≡ answer_at (ceiling_in self.old) (topmost (ceiling_rows limit)) }
        ensures set { was_set result ≡ true → (layered B.Screen).settings self.new ≡ with_setting_at ((layered B.Screen).settings self.old) (ceiling_in self.old) 0 limit }
        ensures opened { was_set result ≡ true → (layered B.Screen).ontop self.new ≡ (layered B.Screen).fresh self.new }
        ensures shape { shape_of self.new ≡ shape_of self.old }
        ensures declined { was_set result ≡ false → self.new ≡ self.old }
    {
        match self {
            Layered::Bare(_) | Layered::Capped(_) => None,
            Layered::Ceiled(screen) => Some(screen.set_ceiling(limit)),
            Layered::CapOverCeiling(screen) => Some(screen.set_ceiling(limit)),
            Layered::CeilingOverCap(screen) => Some(screen.set_ceiling(limit)),
        }
    }
}

// A stack means what its layers and its base mean. The first of its tables names its shape.
impl<B: Screen> Screen for Layered<B> {
    ghost fresh = { (layered B.Screen).fresh };

    ghost ontop = { (layered B.Screen).ontop };

    ghost settings = { (layered B.Screen).settings };

    ghost fresh_lawful = { layered_fresh_lawful B.Screen.own B.Screen.fresh_lawful };

    ghost ontop_lawful = { layered_ontop_lawful B.Screen.own B.Screen.ontop_lawful };

    ghost decided = { layered_decided B.Screen.own B.Screen.decided };

    fn reset(&mut self) {
        match self {
            Layered::Bare(screen) => screen.reset(),
            Layered::Capped(screen) => screen.reset(),
            Layered::Ceiled(screen) => screen.reset(),
            Layered::CapOverCeiling(screen) => screen.reset(),
            Layered::CeilingOverCap(screen) => screen.reset(),
        }
    }

    fn room(&self, place: u32) -> u32 {
        match self {
            Layered::Bare(screen) => screen.room(place),
            Layered::Capped(screen) => screen.room(place),
            Layered::Ceiled(screen) => screen.room(place),
            Layered::CapOverCeiling(screen) => screen.room(place),
            Layered::CeilingOverCap(screen) => screen.room(place),
        }
    }

    fn take(&mut self, place: u32, quantity: u32) -> Result<(), ScreenRefusal> {
        match self {
            Layered::Bare(screen) => screen.take(place, quantity),
            Layered::Capped(screen) => screen.take(place, quantity),
            Layered::Ceiled(screen) => screen.take(place, quantity),
            Layered::CapOverCeiling(screen) => screen.take(place, quantity),
            Layered::CeilingOverCap(screen) => screen.take(place, quantity),
        }
    }
}

impl<B: NodeLimits> NodeLimits for Layered<B> {
    ghost nodes = { λ s. B.NodeLimits.nodes (base_of s) };

    ghost layers = { before_base B.NodeLimits.layers };

    fn set_limit(&mut self, node: u32, limit: u32) -> Result<(), ScreenRefusal> {
        match self {
            Layered::Bare(screen) => screen.set_limit(node, limit),
            Layered::Capped(screen) => screen.set_limit(node, limit),
            Layered::Ceiled(screen) => screen.set_limit(node, limit),
            Layered::CapOverCeiling(screen) => screen.set_limit(node, limit),
            Layered::CeilingOverCap(screen) => screen.set_limit(node, limit),
        }
    }

    fn hang(&mut self, unit: u32, node: u32) -> Result<(), ScreenRefusal> {
        match self {
            Layered::Bare(screen) => screen.hang(unit, node),
            Layered::Capped(screen) => screen.hang(unit, node),
            Layered::Ceiled(screen) => screen.hang(unit, node),
            Layered::CapOverCeiling(screen) => screen.hang(unit, node),
            Layered::CeilingOverCap(screen) => screen.hang(unit, node),
        }
    }
}

impl<B: NodeParents> NodeParents for Layered<B> {
    fn set_parent(&mut self, node: u32, parent: u32) -> Result<(), ScreenRefusal> {
        match self {
            Layered::Bare(screen) => screen.set_parent(node, parent),
            Layered::Capped(screen) => screen.set_parent(node, parent),
            Layered::Ceiled(screen) => screen.set_parent(node, parent),
            Layered::CapOverCeiling(screen) => screen.set_parent(node, parent),
            Layered::CeilingOverCap(screen) => screen.set_parent(node, parent),
        }
    }
}
