// A clearing under way: what was taken through a screen, place by place.
ghost use Rattle.std.specs.Prelude.{◌≡◌, ◌+◌, ◌^◌, ◌<◌, min, replicate};
ghost use Rattle.lawful.specs.Awards.{raise};
ghost use Rattle.lawful.specs.Lawful.{above};
ghost use Rattle.market.specs.Maxima.{place_count};
ghost use Rattle.outcome.specs.Groups.{total, room_over};
ghost use Rattle.clearing.specs.Awarded.{award_of};
ghost use Rattle.clearing.specs.Steps.{SameScreen};

use market::figures::Place;
use screen::Screen;

// The screen, and the quantities taken through it since it was reset, by place.
#[derive(Drop)]
pub(crate) struct Drawing<'a, S: Screen> {
    pub(crate) screen: &'a mut S,
    pub(crate) awards: [u32; 256],
    ghost opened: { S.ontop screen.now ≡ above (award_of awards) (S.fresh screen.now) },
}

impl<'a, S: Screen> Drawing<'a, S> {
    // Resets the screen: nothing is taken.
    pub(crate) fn start(screen: &'a mut S) -> Drawing<'a, S>
        ensures none { result.awards ≡ replicate place_count 0 }
        ensures same { SameScreen S.settings screen.entry result.screen }
    {
        screen.reset();
        Drawing {
            screen,
            awards: [0; 256],
        }
    }

    // Takes at a place as much as the quantity and the room there allow, and says how much.
    pub(crate) fn take_up_to(&mut self, place: Place, quantity: u32) -> u32
        requires fits { total (award_of self.old.awards) + quantity < 2 ^ 32 }
        ensures taken { result ≡ min quantity (room_over (S.fresh self.old.screen.now) (award_of self.old.awards) place.number) }
        ensures award { award_of self.new.awards ≡ raise (award_of self.old.awards) place.number result }
        ensures more { total (award_of self.new.awards) ≡ total (award_of self.old.awards) + result }
        ensures same { SameScreen S.settings self.old.screen self.new.screen }
    {
        let at = u32::from(place.number);
        let taken = quantity.min(self.screen.room(at));
        self.screen.take(at, taken).unwrap();
        self.awards[usize::from(place.number)] += taken;
        taken
    }
}
