#![tactic(auto)]

// Prints a readable account of one quarter hour, from declared figures to awards, shares and prices.

mod clearings;
mod limits;
mod offers;
mod sequence;

// The account of the quarter hour, step by step.
fn account(rt: &HostRuntime) -> anyhow::Result<()> {
    println!(rt; "One quarter hour of the reserve market, from declared figures to awards.")?;
    println!(rt; "Quantities are tenths of a MW, prices fen per MWh, offers yuan per MWh.")?;
    let offers = offers::declared(rt)?;
    let mut tiers = offers::tiers(rt, offers.as_slice())?;
    sequence::form(rt, tiers.as_mut_slice())?;
    sequence::share_group(rt, tiers.as_slice())?;
    limits::show(rt)?;
    clearings::clear_twice(rt, tiers.as_slice())
}

fn main(rt: HostRuntime) -> anyhow::Result<()> {
    account(&rt)
}
