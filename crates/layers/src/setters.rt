// Setting a layer, also through those that stand above it.
// What is set in a layer forgets what was taken, above and below it too; that holds until the next take, so the clauses tell it and no type can.
ghost use Rattle.std.specs.Prelude.{◌≡◌, ℕ, true, false, is_ok};
ghost use Rattle.market.specs.Rows.{topmost};
ghost use Rattle.screen.specs.Meaning.{with_setting, cap_rows, ceiling_rows, answer_of};

use market::refusals::ScreenRefusal;
use screen::Screen;

// A stack with a cap for each place.
pub trait PlaceCaps: Screen {
    // How many tables of layers stand before the caps.
    ghost above: { Self → ℕ };

    // Sets the cap of a place and forgets what was taken. Declined with 4 where there is no such place and with 5 above 20,000.
    fn set_cap(&mut self, place: u32, quantity: u32) -> Result<(), ScreenRefusal>
        ensures answer { answer_of result ≡ topmost (cap_rows place quantity) }
        ensures set { is_ok result ≡ true → Self.settings self.new ≡ with_setting (Self.settings self.old) (above self.old) place quantity }
        ensures opened { is_ok result ≡ true → Self.ontop self.new ≡ Self.fresh self.new }
        ensures shape { above self.new ≡ above self.old }
        ensures declined { is_ok result ≡ false → self.new ≡ self.old };
}

// A stack with a ceiling on the total.
pub trait TotalCeiling: Screen {
    // How many tables of layers stand before the ceiling.
    ghost above: { Self → ℕ };

    // Sets the ceiling and forgets what was taken. Declined with 5 above 6,000,000.
    fn set_ceiling(&mut self, limit: u32) -> Result<(), ScreenRefusal>
        ensures answer { answer_of result ≡ topmost (ceiling_rows limit) }
        ensures set { is_ok result ≡ true → Self.settings self.new ≡ with_setting (Self.settings self.old) (above self.old) 0 limit }
        ensures opened { is_ok result ≡ true → Self.ontop self.new ≡ Self.fresh self.new }
        ensures shape { above self.new ≡ above self.old }
        ensures declined { is_ok result ≡ false → self.new ≡ self.old };
}
