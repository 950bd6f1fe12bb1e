// The ceiling layer: one limit on the total, over any screen.
ghost use Rattle.std.specs.Prelude.{◌≡◌, suc, true, false, [], ◌∷◌, is_ok, slice_index};
ghost use Rattle.market.specs.Maxima.{max_limit};
ghost use Rattle.market.specs.Rows.{topmost};
ghost use Rattle.screen.specs.Meaning.{with_setting, ceiling_rows, answer_of};
ghost use Rattle.layers.specs.Cutting.{keeps_ceiling};
ghost use Rattle.layers.specs.Stack.{under_ceiling, outermost};
ghost use Rattle.layers.specs.OnePlace.{ceiling_at_one_place};
ghost use Rattle.lawful.proofs.Cuts.{total_limit_keeps_laws};
ghost use Rattle.std.proofs.Common.{ap};

use crate::caps::Caps;
use crate::cut::Cut;
use crate::layer::{Layer, Table};
use crate::setters::TotalCeiling;
use market::figures::Place;
use market::maxima::MAX_LIMIT;
use market::refusals::ScreenRefusal;
use screen::Screen;

// One limit on the total, in tenths.
#[derive(Clone, Copy)]
pub struct Ceiling {
    limit: u32,
}

// The ceiling, and what is left of it.
pub type CeilingTable = Table<Ceiling>;

// A screen under one ceiling on the total.
pub type CeilingLayer<S> = Layer<S, Ceiling>;

impl Ceiling {
    // Sets the ceiling. Declined with 5 above 6,000,000.
    fn set_ceiling(&mut self, limit: u32) -> Result<(), ScreenRefusal>
        ensures answer { answer_of result ≡ topmost (ceiling_rows limit) }
        ensures set { is_ok result ≡ true → self.new.limit ≡ limit }
        ensures declined { is_ok result ≡ false → self.new ≡ self.old }
    {
        if limit > MAX_LIMIT {
            return Err(ScreenRefusal::AboveMaximum { name: 0 });
        }
        self.limit = limit;
        Ok(())
    }
}

impl Cut for Ceiling {
    ghost kept = { λ t. keeps_ceiling t.limit };

    ghost row = { λ t. t.limit ∷ [] };

    ghost widest = { max_limit ∷ [] };

    ghost most_at = { λ t _. t.limit };

    ghost alone = { λ t p q inside. ceiling_at_one_place t.limit p q inside };

    ghost keeps_laws = { λ t A laws. total_limit_keeps_laws 256 t.limit A laws };

    ghost row_decides = { λ s t e. ap (λ row. keeps_ceiling (slice_index row 0)) e };

    fn at_maximum() -> Ceiling {
        Ceiling { limit: MAX_LIMIT }
    }

    fn most(&self, _place: Place) -> u32 {
        self.limit
    }

    fn lower(&mut self, _place: Place, quantity: u32) {
        self.limit = self.limit.saturating_sub(quantity);
    }
}

// The ceiling is the first table.
impl<S: Screen> TotalCeiling for Layer<S, Ceiling> {
    ghost above = { outermost };

    // Sets the ceiling and forgets what was taken. Declined with 5 above 6,000,000.
    fn set_ceiling(&mut self, limit: u32) -> Result<(), ScreenRefusal>
        ensures answer { answer_of result ≡ topmost (ceiling_rows limit) }
        ensures set { is_ok result ≡ true → (under_ceiling S.Screen).settings self.new ≡ with_setting ((under_ceiling S.Screen).settings self.old) 0 0 limit }
        ensures opened { is_ok result ≡ true → (under_ceiling S.Screen).ontop self.new ≡ (under_ceiling S.Screen).fresh self.new }
        ensures shape { outermost self.new ≡ outermost self.old }
        ensures declined { is_ok result ≡ false → self.new ≡ self.old }
        ensures below { is_ok result ≡ true → S.Screen.ontop self.new.below ≡ S.Screen.fresh self.old.below }
    {
        self.table.limits.set_ceiling(limit)?;
        self.reset();
        Ok(())
    }
}

// The ceiling stands below the caps, which forget too what was taken.
impl<S: TotalCeiling> TotalCeiling for Layer<S, Caps> {
    ghost above = { λ s. suc (S.TotalCeiling.above s.below) };

    fn set_ceiling(&mut self, limit: u32) -> Result<(), ScreenRefusal> {
        self.below.set_ceiling(limit)?;
        self.table.reset();
        Ok(())
    }
}
