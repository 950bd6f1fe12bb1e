// One group of tied tiers, worked in two rounds.
// Each step asks that its want fits beside what is taken and that a group is no longer than there are places: both speak of parameters, so no
// type can hold them.
ghost use Rattle.std.specs.Prelude.{◌≡◌, ◌+◌, ◌^◌, ◌<◌, ◌≤◌, length, sum};
ghost use Rattle.market.specs.Maxima.{place_count};
ghost use Rattle.outcome.specs.Groups.{total, targets, first_round, second_round, work_tiers};
ghost use Rattle.clearing.specs.Awarded.{award_of, places_of, capacities_of};
ghost use Rattle.clearing.specs.Steps.{Took, SameScreen};

use super::drawing::Drawing;
use market::sharing::Sharing;
use market::tiers::Tier;
use screen::Screen;

// The capacities of a group together.
fn group_capacity(group: &[Tier]) -> u32
    requires { length group.now ≤ place_count }
    ensures { result ≡ sum (capacities_of group.now) }
{
    group.iter().map(|tier| u32::from(tier.capacity)).sum()
}

impl<S: Screen> Drawing<'_, S> {
    // The first round: in order each tier takes up to its target. What the round took.
    // A want above the group's capacities gives each tier its capacity, as a want equal to them does.
    fn first_round(&mut self, group: &[Tier], want: u32) -> u32
        requires few { length group.now ≤ place_count }
        requires fits { total (award_of self.old.awards) + want < 2 ^ 32 }
        ensures award { award_of self.new.awards ≡ first_round (S.fresh self.old.screen.now) (places_of group.now) (targets want (capacities_of group.now)) (award_of self.old.awards) }
        ensures taken { Took want result (award_of self.old.awards) (award_of self.new.awards) }
        ensures same { SameScreen S.settings self.old.screen self.new.screen }
    {
        let capacity = group_capacity(group);
        let mut sharing = Sharing::start(want.min(capacity), capacity).unwrap();
        let mut taken: u32 = 0;
        for tier in group {
            let target = sharing.next_share(u32::from(tier.capacity)).unwrap();
            taken += self.take_up_to(tier.place, target);
        }
        taken
    }

    // The second round: in order each tier takes as much more as the want, its capacity and the room allow. What the round took.
    fn second_round(&mut self, group: &[Tier], want: u32) -> u32
        requires fits { total (award_of self.old.awards) + want < 2 ^ 32 }
        ensures award { award_of self.new.awards ≡ second_round (S.fresh self.old.screen.now) (total (award_of self.old.awards) + want) (places_of group.now) (capacities_of group.now) (award_of self.old.awards) }
        ensures taken { Took want result (award_of self.old.awards) (award_of self.new.awards) }
        ensures same { SameScreen S.settings self.old.screen self.new.screen }
    {
        let mut left = want;
        for tier in group {
            let award = self.awards[usize::from(tier.place.number)];
            let more = u32::from(tier.capacity).saturating_sub(award);
            left -= self.take_up_to(tier.place, left.min(more));
        }
        want - left
    }

    // Works the two rounds of one group of tied tiers. What the group took.
    pub(crate) fn work_group(&mut self, group: &[Tier], want: u32) -> u32
        requires few { length group.now ≤ place_count }
        requires fits { total (award_of self.old.awards) + want < 2 ^ 32 }
        ensures award { award_of self.new.awards ≡ work_tiers (S.fresh self.old.screen.now) (total (award_of self.old.awards) + want) (places_of group.now) (capacities_of group.now) (award_of self.old.awards) }
        ensures taken { Took want result (award_of self.old.awards) (award_of self.new.awards) }
        ensures same { SameScreen S.settings self.old.screen self.new.screen }
    {
        let first = self.first_round(group, want);
        first + self.second_round(group, want - first)
    }
}
