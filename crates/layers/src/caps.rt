// The cap layer: a cap for each place, over any screen.
ghost use Rattle.std.specs.Prelude.{◌≡◌, suc, true, false, replicate, is_ok, slice_index, slice_set};
ghost use Rattle.market.specs.Maxima.{place_count, max_figure};
ghost use Rattle.market.specs.Rows.{topmost};
ghost use Rattle.screen.specs.Meaning.{with_setting, cap_rows, answer_of};
ghost use Rattle.layers.specs.Cutting.{keeps_caps};
ghost use Rattle.layers.specs.Stack.{under_caps, outermost};
ghost use Rattle.layers.specs.OnePlace.{caps_at_one_place};
ghost use Rattle.lawful.proofs.Cuts.{caps_keep_laws};
ghost use Rattle.std.proofs.Common.{ap};

use crate::ceiling::Ceiling;
use crate::cut::Cut;
use crate::layer::{Layer, Table};
use crate::setters::PlaceCaps;
use market::figures::Place;
use market::maxima::MAX_FIGURE;
use market::refusals::ScreenRefusal;
use screen::Screen;

// A cap for each place, in tenths.
#[derive(Clone, Copy)]
pub struct Caps {
    caps: [u16; 256],
}

// The caps, and what is left of them.
pub type CapTable = Table<Caps>;

// A screen under a cap for each place.
pub type CapLayer<S> = Layer<S, Caps>;

impl Caps {
    // Sets the cap of a place. Declined with 4 where there is no such place and with 5 above 20,000.
    fn set_cap(&mut self, place: u32, quantity: u32) -> Result<(), ScreenRefusal>
        ensures answer { answer_of result ≡ topmost (cap_rows place quantity) }
        ensures set { is_ok result ≡ true → self.new.caps ≡ slice_set self.old.caps place quantity }
        ensures declined { is_ok result ≡ false → self.new ≡ self.old }
    {
        let at = Place::try_from(place)?;
        if quantity > MAX_FIGURE {
            return Err(ScreenRefusal::AboveMaximum { name: place });
        }
        self.caps[usize::from(at.number)] = quantity as u16;
        Ok(())
    }
}

impl Cut for Caps {
    ghost kept = { λ t. keeps_caps t.caps };

    ghost row = { λ t. t.caps };

    ghost widest = { replicate place_count max_figure };

    ghost most_at = { λ t p. slice_index t.caps p };

    ghost alone = { λ t p q inside. caps_at_one_place t.caps p q inside };

    ghost keeps_laws = { λ t A laws. caps_keep_laws 256 (λ p. slice_index t.caps p) A laws };

    ghost row_decides = { λ s t e. ap keeps_caps e };

    fn at_maximum() -> Caps {
        Caps {
            caps: [MAX_FIGURE as u16; 256],
        }
    }

    fn most(&self, place: Place) -> u32 {
        u32::from(self.caps[usize::from(place.number)])
    }

    fn lower(&mut self, place: Place, quantity: u32) {
        let at = usize::from(place.number);
        let left = u32::from(self.caps[at]).saturating_sub(quantity);
        self.caps[at] = left as u16;
    }
}

// The caps are the first table.
impl<S: Screen> PlaceCaps for Layer<S, Caps> {
    ghost above = { outermost };

    // Sets the cap of a place and forgets what was taken. Declined with 4 where there is no such place and with 5 above 20,000.
    fn set_cap(&mut self, place: u32, quantity: u32) -> Result<(), ScreenRefusal>
        ensures answer { answer_of result ≡ topmost (cap_rows place quantity) }
        ensures set { is_ok result ≡ true → (under_caps S.Screen).settings self.new ≡ with_setting ((under_caps S.Screen).settings self.old) 0 place quantity }
        ensures opened { is_ok result ≡ true → (under_caps S.Screen).ontop self.new ≡ (under_caps S.Screen).fresh self.new }
        ensures shape { outermost self.new ≡ outermost self.old }
        ensures declined { is_ok result ≡ false → self.new ≡ self.old }
        ensures below { is_ok result ≡ true → S.Screen.ontop self.new.below ≡ S.Screen.fresh self.old.below }
    {
        self.table.limits.set_cap(place, quantity)?;
        self.reset();
        Ok(())
    }
}

// The caps stand below the ceiling, which forgets too what was taken.
impl<S: PlaceCaps> PlaceCaps for Layer<S, Ceiling> {
    ghost above = { λ s. suc (S.PlaceCaps.above s.below) };

    fn set_cap(&mut self, place: u32, quantity: u32) -> Result<(), ScreenRefusal> {
        self.below.set_cap(place, quantity)?;
        self.table.reset();
        Ok(())
    }
}
