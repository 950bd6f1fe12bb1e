// What is entered at a point: units' offers, as handed over and as checked.
use super::classes::Class;
use super::figures::{Grid, Offer, Unit, UnitFigures};

// A unit's offer as it is handed over, unchecked: five figures in tenths, and an offer in yuan for each of its four places.
#[derive(Clone, Copy, PartialEq, Eq, Debug)]
pub struct RawOffer {
    pub unit: u32,
    pub grid: u32,
    pub class: u32,
    pub nameplate: u32,
    pub own_derate: u32,
    pub network_derate: u32,
    pub kept_reserve: u32,
    pub plan: u32,
    pub offers: [u32; 4],
}

// A unit's offer, checked.
#[derive(Clone, Copy, PartialEq, Eq, Debug)]
pub struct UnitOffer {
    pub unit: Unit,
    pub grid: Grid,
    pub class: Class,
    pub figures: UnitFigures,
    pub offers: [Offer; 4],
}
