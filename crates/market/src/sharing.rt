// The sharing rule: a quantity is shared over claims by running sums. It serves bids by open need and tied tiers by capacity.
ghost use Rattle.std.specs.Prelude.{◌≡◌, ◌+◌, ◌^◌, ◌<◌, ◌≤◌, true, false, length, is_ok, is_some, if◌then◌else◌, sum, MatchOption};
ghost use Rattle.market.specs.Worked.{WorkedShares};
ghost use Rattle.market.specs.Sharing.{part, share_at, shares_of, Fair, can_share};

// A sharing under way: the quantity, the sum of all claims, and the running sum of the claims served so far.
#[derive(Clone, Copy)]
pub struct Sharing {
    pub quantity: u32,
    pub claims: u32,
    pub running: u32,
    ghost enough: { quantity ≤ claims },
    ghost served: { running ≤ claims },
}

impl Sharing {
    // Begins to share a quantity over claims with this sum; none where the quantity is above the sum.
    pub fn start(quantity: u32, claims: u32) -> Option<Sharing>
        ensures { MatchOption result (claims < quantity) (λ s. (s.quantity ≡ quantity) × (s.claims ≡ claims) × (s.running ≡ 0)) }
    {
        if quantity <= claims {
            Some(Sharing {
                quantity,
                claims,
                running: 0,
            })
        } else {
            None
        }
    }

    // What all claims served so far get together.
    fn part(&self) -> u32
        ensures { result ≡ part self.now.quantity self.now.claims self.now.running }
    {
        if self.claims == 0 {
            return 0;
        }
        let product = u64::from(self.quantity) * u64::from(self.running);
        (product / u64::from(self.claims)) as u32
    }

    // The share of a claim that is within what is left of the sum of claims.
    fn serve(&mut self, claim: u32) -> u32
        requires { self.old.running + claim ≤ self.old.claims }
        ensures share { result ≡ share_at self.old.quantity self.old.claims self.old.running claim }
        ensures bound { result ≤ claim }
        ensures after { (self.new.quantity ≡ self.old.quantity) × (self.new.claims ≡ self.old.claims) × (self.new.running ≡ self.old.running + claim) }
    {
        let before = self.part();
        self.running += claim;
        self.part() - before
    }

    // The share of the next claim. None, and nothing is altered, where the claim would lift the running sum above the sum of claims.
    pub fn next_share(&mut self, claim: u32) -> Option<u32>
        ensures share { MatchOption result (self.old.claims < self.old.running + claim) (λ x. (self.old.running + claim ≤ self.old.claims) × (x ≡ share_at self.old.quantity self.old.claims self.old.running claim) × (x ≤ claim)) }
        ensures kept { (self.new.quantity ≡ self.old.quantity) × (self.new.claims ≡ self.old.claims) }
        ensures running { self.new.running ≡ self.old.running + (if is_some result then claim else 0) }
    {
        if claim > self.claims - self.running {
            return None;
        }
        Some(self.serve(claim))
    }
}

// The sum of claims, or none where it does not fit.
fn sum_of(claims: &[u32]) -> Option<u32>
    ensures { MatchOption result (2 ^ 32 ≤ sum claims.now) (λ n. n ≡ sum claims.now) }
{
    claims
        .iter()
        .try_fold(0u32, |all, claim| all.checked_add(*claim))
}

// Why a quantity cannot be shared out: it is above the sum of claims, the sum does not fit, or there are not as many shares as claims.
#[derive(Clone, Copy, PartialEq, Eq, Debug)]
pub struct CannotShare;

// Writes the share of each claim of a quantity into `shares`. Declined, nothing is written.
pub fn share_out(quantity: u32, claims: &[u32], shares: &mut [u32]) -> Result<(), CannotShare>
    ensures answer { is_ok result ≡ can_share quantity claims.now (length shares.old) }
    ensures given { is_ok result ≡ true → (shares.new ≡ shares_of quantity claims.now) × Fair quantity claims.now shares.new }
    ensures declined { is_ok result ≡ false → shares.new ≡ shares.old }
    ensures worked { WorkedShares }
{
    if shares.len() != claims.len() {
        return Err(CannotShare);
    }
    let all = sum_of(claims).ok_or(CannotShare)?;
    let mut sharing = Sharing::start(quantity, all).ok_or(CannotShare)?;
    // By place: zipped with `iter_mut`, its invariant would have to speak of items that are lent.
    for (i, claim) in claims.iter().enumerate() {
        shares[i] = sharing.serve(*claim);
    }
    Ok(())
}
