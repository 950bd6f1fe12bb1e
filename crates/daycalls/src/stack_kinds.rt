// The kinds of stack that a script can name.
use corridors::CorridorScreen;
use grids::GridScreen;
use screen::{OpenScreen, Screen};
use shapes::Layered;
use stacks::{AnyOf, AnyScreen};

#[derive(Clone, Copy)]
enum Base {
    Open,
    Grid,
    Corridor,
}

// The layers over a base, the outermost named first.
#[derive(Clone, Copy)]
enum Layers {
    Bare,
    Cap,
    Ceiling,
    CapOverCeiling,
    CeilingOverCap,
}

#[derive(Clone, Copy)]
pub struct StackKind {
    layers: Layers,
    base: Base,
}

impl Base {
    fn named(word: &str) -> Option<Base> {
        match word {
            "open" => Some(Base::Open),
            "grid" => Some(Base::Grid),
            "corridor" => Some(Base::Corridor),
            _ => None,
        }
    }
}

impl Layers {
    fn named(words: &[&str]) -> Option<Layers> {
        match words {
            [] => Some(Layers::Bare),
            ["cap"] => Some(Layers::Cap),
            ["ceiling"] => Some(Layers::Ceiling),
            ["cap", "ceiling"] => Some(Layers::CapOverCeiling),
            ["ceiling", "cap"] => Some(Layers::CeilingOverCap),
            _ => None,
        }
    }

    fn over<B: Screen>(self, base: B) -> Layered<B> {
        match self {
            Layers::Bare => Layered::bare(base),
            Layers::Cap => Layered::capped(base),
            Layers::Ceiling => Layered::ceiled(base),
            Layers::CapOverCeiling => Layered::cap_over_ceiling(base),
            Layers::CeilingOverCap => Layered::ceiling_over_cap(base),
        }
    }
}

impl StackKind {
    // The open screen under no layer.
    pub const OPEN: StackKind = StackKind {
        layers: Layers::Bare,
        base: Base::Open,
    };

    // The kind that words name: layers, the outermost first, then the base.
    pub fn named(words: &[&str]) -> Option<StackKind> {
        let [layers @ .., base] = words else {
            return None;
        };
        Some(StackKind {
            layers: Layers::named(layers)?,
            base: Base::named(base)?,
        })
    }

    // A new screen of the kind, with all its settings at first.
    pub fn build(self) -> AnyScreen {
        match self.base {
            Base::Open => AnyOf::Open(self.layers.over(OpenScreen)),
            Base::Grid => AnyOf::Grid(self.layers.over(GridScreen::new())),
            Base::Corridor => AnyOf::Corridor(self.layers.over(CorridorScreen::new())),
        }
    }
}
