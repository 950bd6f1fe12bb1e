// Limits that a layer puts over the screen below it.
ghost use Rattle.std.specs.Prelude.{◌≡◌, ℕ, ◌<◌, min, List, nat_le};
ghost use Rattle.lawful.specs.Awards.{AwardSet, zero_award, raise};
ghost use Rattle.lawful.specs.Lawful.{Lawful};
ghost use Rattle.screen.specs.Meaning.{after_take};
ghost use Rattle.layers.specs.Cutting.{both};

use market::figures::Place;

// Limits, such as a cap for each place, as a set of awards: those that keep them.
pub trait Cut: Copy + Drop {
    // The awards that keep the limits.
    ghost kept: { Self → AwardSet };

    // The limits as one table of the settings.
    ghost row: { Self → List ℕ };

    // That table with every limit at its maximum.
    ghost widest: { List ℕ };

    // The most that keeps the limits at a place alone.
    ghost most_at: { Self → ℕ → ℕ };

    // Every limit at its maximum.
    fn at_maximum() -> Self
        ensures { row result ≡ widest };

    // The most that keeps the limits at the place alone.
    fn most(&self, place: Place) -> u32
        ensures { result ≡ most_at self.now place.number };

    // Lowers the limits by a quantity that is taken at the place, or by the most that keeps them there.
    fn lower(&mut self, place: Place, quantity: u32)
        ensures { kept self.new ≡ after_take (kept self.old) place.number (min (most_at self.old place.number) quantity) };

    // At a place alone the limits permit what is no more than `most_at`.
    ghost alone: { (t : Self) (p q : ℕ) → p < 256 → kept t (raise zero_award p q) ≡ nat_le q (most_at t p) };

    // What a lawful set permits within the limits is lawful.
    ghost keeps_laws: { (t : Self) (A : AwardSet) → Lawful 256 A → Lawful 256 (both A (kept t)) };

    // The row alone decides what keeps the limits.
    ghost row_decides: { (s t : Self) → row s ≡ row t → kept s ≡ kept t };
}
