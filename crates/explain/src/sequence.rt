// The sellers' sequence: all tiers by landed offer, class and place, and a want shared over a tied group.
use market::classes::Class;
use market::ranking::put_in_rank;
use market::sharing::share_out;
use market::tiers::Tier;

// Puts the tiers into their sequence and shows it.
pub fn form(rt: &HostRuntime, tiers: &mut [Tier]) -> anyhow::Result<()> {
    put_in_rank(tiers);
    println!(rt; "")?;
    println!(rt; "The sellers' sequence:")?;
    for tier in tiers.iter() {
        println!(rt;
            "  landed {}, class {}, place {}: capacity {}",
            tier.landed.fen(),
            u8::from(tier.class),
            tier.place.number,
            tier.capacity
        )?;
    }
    Ok(())
}

// Whether a tier lands at 42,200 in class 4.
fn ties(tier: &Tier) -> bool {
    tier.landed.fen() == 42_200 && tier.class == Class::LargeUltraLowCoal
}

// Shares a want over the tiers that tie at 42,200 in class 4.
pub fn share_group(rt: &HostRuntime, tiers: &[Tier]) -> anyhow::Result<()> {
    let claims: Vec<u32> = tiers
        .iter()
        .filter(|tier| ties(tier))
        .map(|tier| u32::from(tier.capacity))
        .collect(rt.alloc())?;
    let mut shares = vec![in rt.alloc(); 0; claims.len()]?;
    println!(rt; "")?;
    println!(rt; "A want of 50 over the tiers that tie at 42200 in class 4:")?;
    if share_out(50, claims.as_slice(), shares.as_mut_slice()).is_ok() {
        println!(rt; "  capacities {claims:?} get {shares:?}")?;
    }
    Ok(())
}
