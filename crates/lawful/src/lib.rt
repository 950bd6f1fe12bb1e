#![tactic(auto)]

ghost use Rattle.std.specs.Prelude.{◌≡◌, false, slice_index, slice_index_or};
ghost use Rattle.lawful.specs.Awards.{cost, within};
ghost use Rattle.lawful.specs.Lawful.{AboveKeepsLaws, CapsKeepLaws, NestedGroupsAreLawful, SumsByClassKeepLaws, TotalLimitKeepsLaws};
ghost use Rattle.lawful.specs.Sums.{sum_to};
ghost use Rattle.lawful.specs.Worth.{FilledIsCheapest, FullIsMost};

// The total of an award, over all places.
// A limit that is kept on it leaves the permitted awards lawful, and so do the other limits named here.
pub fn total(award: &[u16; 256]) -> u32
    ensures value { result ≡ sum_to 256 (λ p. slice_index award.now p) }
    ensures caps { CapsKeepLaws }
    ensures ceiling { TotalLimitKeepsLaws }
    ensures above { AboveKeepsLaws }
    ensures classes { SumsByClassKeepLaws }
    ensures groups { NestedGroupsAreLawful }
{
    award.iter().map(|q| u32::from(*q)).sum()
}

// What an award draws from the places that are marked.
// Where no marked place can be raised, no permitted award draws more from them.
pub fn drawn(award: &[u16; 256], from: &[bool; 256]) -> u32
    ensures value { result ≡ within 256 (λ p. slice_index_or from.now p false) (λ p. slice_index award.now p) }
    ensures most { FullIsMost }
{
    // As a chain over both tables zipped, its sum's bound and value stay unproved.
    let mut sum: u32 = 0;
    for (p, q) in award.iter().enumerate() {
        if from[p] {
            sum += u32::from(*q);
        }
    }
    sum
}

// What an award costs at a price for each place.
// An award that fills the cheaper places before it draws on others is a cheapest one of its total.
pub fn cost_of(award: &[u16; 256], price: &[u32; 256]) -> u64
    ensures value { result ≡ cost 256 (λ p. slice_index price.now p) (λ p. slice_index award.now p) }
    ensures cheapest { FilledIsCheapest }
{
    // As a chain over both tables zipped, its sum's bound and value stay unproved.
    let mut sum: u64 = 0;
    for (p, q) in award.iter().enumerate() {
        sum += u64::from(*q) * u64::from(price[p]);
    }
    sum
}
