// The declared figures of the quarter hour: each unit's headroom, bands, capacities and landed offers.
use market::entries::UnitOffer;
use market::figures::{Charges, Grid, Tariff};
use market::refusals::Refusal;
use market::tiers::Tier;
use quarterhour::OFFERS;

// The tariff of each selling grid and of the branch, in fen.
fn charges(grid: Grid) -> Charges {
    let fen = if grid.number == 1 { 500 } else { 700 };
    Charges {
        grid: Tariff { fen },
        branch: Tariff { fen: 300 },
    }
}

// One unit: its figures, and what it offers in each band.
fn show_unit(rt: &HostRuntime, offer: &UnitOffer) -> anyhow::Result<()> {
    let figures = &offer.figures;
    println!(rt;
        "unit {} on grid {}, class {}: nameplate {}, plan {}, headroom {}",
        offer.unit.number,
        offer.grid.number,
        u8::from(offer.class),
        figures.nameplate,
        figures.plan,
        figures.headroom()
    )?;
    for band in 0..offer.class.band_count() {
        let capacity = offer.class.capacity(figures, band);
        match offer.tier(band, charges(offer.grid)) {
            Some(tier) => println!(rt;
                "  band {band}: capacity {capacity} at place {}, landed offer {}",
                tier.place.number,
                tier.landed.fen()
            )?,
            None => println!(rt; "  band {band}: capacity {capacity}, no tier")?,
        }
    }
    Ok(())
}

// Checks every declaration, shows it, and keeps those that are accepted.
pub fn declared(rt: &HostRuntime) -> anyhow::Result<Vec<UnitOffer>> {
    println!(rt; "")?;
    println!(rt; "Declared figures and what they offer:")?;
    let mut offers = Vec::new(rt.alloc());
    for raw in &OFFERS {
        match UnitOffer::checked(raw) {
            Ok(offer) => {
                show_unit(rt, &offer)?;
                offers.push(offer)?;
            }
            Err(refusal) => {
                let Refusal {
                    number,
                    layer,
                    name,
                } = Refusal::from(refusal);
                println!(rt;
                    "unit {} is declined: refusal {number} of layer {layer}, naming {name}",
                    raw.unit
                )?;
            }
        }
    }
    Ok(offers)
}

// The tiers of all offers.
pub fn tiers(rt: &HostRuntime, offers: &[UnitOffer]) -> anyhow::Result<Vec<Tier>> {
    let mut tiers = Vec::new(rt.alloc());
    for offer in offers {
        for band in 0..offer.class.band_count() {
            if let Some(tier) = offer.tier(band, charges(offer.grid)) {
                tiers.push(tier)?;
            }
        }
    }
    Ok(tiers)
}
