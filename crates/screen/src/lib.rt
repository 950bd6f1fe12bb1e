#![tactic(auto)]

// Screens: what security staff put under the clearing.
// A screen means two sets of awards: the fresh set, permitted at the start, and the open set, permitted on top of what was taken.
ghost use Rattle.std.specs.Prelude.{◌≡◌, ℕ, ◌+◌, Bool, true, false, cond, List, [], is_ok};
ghost use Rattle.lawful.specs.Awards.{AwardSet};
ghost use Rattle.lawful.specs.Lawful.{Lawful};
ghost use Rattle.market.specs.Rows.{topmost};
ghost use Rattle.screen.specs.Meaning.{Settings, with_setting, room_at, after_take, take_rows, limit_rows, hang_rows, parent_rows, answer_of};
ghost use Rattle.screen.specs.Rooms.{all_lawful};
ghost use Rattle.std.proofs.Common.{rules};

use market::figures::Place;
use market::maxima::{MAX_FIGURE, PLACES};
use market::refusals::ScreenRefusal;

pub mod nodes;

pub trait Screen {
    // The awards permitted at the start.
    ghost fresh: { Self → AwardSet };

    // The awards permitted on top of what was taken.
    ghost ontop: { Self → AwardSet };

    // What was set: limits, hangings, parents, caps, and those of the screen below.
    ghost settings: { Self → Settings };

    // Forgets what was taken.
    fn reset(&mut self)
        ensures opened { ontop self.new ≡ fresh self.old }
        ensures set { settings self.new ≡ settings self.old };

    // The largest quantity up to 20,000 that can be taken at the place, 0 where there is no such place.
    fn room(&self, place: u32) -> u32
        ensures { result ≡ room_at (ontop self.now) place };

    // Takes a quantity at a place. Declined with 4 where there is no such place and with 15 above the room, it leaves the screen as it was.
    fn take(&mut self, place: u32, quantity: u32) -> Result<(), ScreenRefusal>
        ensures answer { answer_of result ≡ topmost (take_rows (ontop self.old) place quantity) }
        ensures taken { is_ok result ≡ true → ontop self.new ≡ after_take (ontop self.old) place quantity }
        ensures set { settings self.new ≡ settings self.old }
        ensures declined { is_ok result ≡ false → self.new ≡ self.old };

    ghost fresh_lawful: { (s : Self) → Lawful 256 (fresh s) };

    ghost ontop_lawful: { (s : Self) → Lawful 256 (ontop s) };

    // The settings alone decide the fresh set.
    ghost decided: { (s t : Self) → settings s ≡ settings t → fresh s ≡ fresh t };
}

// A screen at whose base units hang on grids or corridors, each with a limit. The base's tables are its limits and its hangings.
// What is set at the base forgets what was taken, in the layers above it too. The clauses tell it of each setter: it holds until the next take,
// so no type can hold it.
pub trait NodeLimits: Screen {
    // How many grids or corridors there are.
    ghost nodes: { Self → ℕ };

    // How many tables of layers stand before those of the base.
    ghost layers: { Self → ℕ };

    // Sets the limit of a grid or corridor. Declined with 4 where there is none of this number and with 5 above 6,000,000.
    fn set_limit(&mut self, node: u32, limit: u32) -> Result<(), ScreenRefusal>
        ensures answer { answer_of result ≡ topmost (limit_rows (nodes self.old) node limit) }
        ensures set { is_ok result ≡ true → Self.settings self.new ≡ with_setting (Self.settings self.old) (layers self.old) node limit }
        ensures opened { is_ok result ≡ true → Self.ontop self.new ≡ Self.fresh self.new }
        ensures shape { (nodes self.new ≡ nodes self.old) × (layers self.new ≡ layers self.old) }
        ensures declined { is_ok result ≡ false → self.new ≡ self.old };

    // Hangs a unit on a grid or corridor. Declined with 4 where there is no such unit, or else none such.
    fn hang(&mut self, unit: u32, node: u32) -> Result<(), ScreenRefusal>
        ensures answer { answer_of result ≡ topmost (hang_rows (nodes self.old) unit node) }
        ensures set { is_ok result ≡ true → Self.settings self.new ≡ with_setting (Self.settings self.old) (layers self.old + 1) unit node }
        ensures opened { is_ok result ≡ true → Self.ontop self.new ≡ Self.fresh self.new }
        ensures shape { (nodes self.new ≡ nodes self.old) × (layers self.new ≡ layers self.old) }
        ensures declined { is_ok result ≡ false → self.new ≡ self.old };
}

// A screen at whose base corridors have parents. The parents are the base's third table.
pub trait NodeParents: Screen + NodeLimits {
    // Sets the parent of a corridor. Declined with 4 where there is no such corridor or parent, and with 16 where the parent is not lower.
    fn set_parent(&mut self, node: u32, parent: u32) -> Result<(), ScreenRefusal>
        ensures answer { answer_of result ≡ topmost (parent_rows (Self.nodes self.old) node parent) }
        ensures set { is_ok result ≡ true → Self.settings self.new ≡ with_setting (Self.settings self.old) (Self.layers self.old + 2) node parent }
        ensures opened { is_ok result ≡ true → Self.ontop self.new ≡ Self.fresh self.new }
        ensures shape { (Self.nodes self.new ≡ Self.nodes self.old) × (Self.layers self.new ≡ Self.layers self.old) }
        ensures declined { is_ok result ≡ false → self.new ≡ self.old };
}

// The screen that permits everything. Its room is always 20,000.
#[derive(Drop)]
pub struct OpenScreen;

impl Screen for OpenScreen {
    ghost fresh = { λ _ _. true };

    ghost ontop = { λ _ _. true };

    ghost settings = { λ _. [] };

    ghost fresh_lawful = { λ s. all_lawful 256 };

    ghost ontop_lawful = { λ s. all_lawful 256 };

    ghost decided = { Prim.search rules };

    fn reset(&mut self) {}

    fn room(&self, place: u32) -> u32 {
        if place < PLACES { MAX_FIGURE } else { 0 }
    }

    fn take(&mut self, place: u32, quantity: u32) -> Result<(), ScreenRefusal> {
        Place::try_from(place)?;
        if quantity > MAX_FIGURE {
            return Err(ScreenRefusal::AboveRoom { place });
        }
        Ok(())
    }
}
