// Headroom and output bands: how much a unit can offer in each band.
ghost use Rattle.std.specs.Prelude.{◌≡◌, ℕ, ◌<◌};
ghost use Rattle.market.specs.Bands.{Scheme, Rising, three_bands, one_band, scheme_of, figures_of, headroom_of, edge_of, capacity_of, AddsUp, AddsUpFromZero};
ghost use Rattle.market.specs.Worked.{WorkedCapacities};
ghost use Rattle.std.proofs.Common.{rules};

use super::classes::Class;
use super::figures::UnitFigures;

impl UnitFigures {
    // What derates, kept reserve and plan leave of the nameplate.
    pub fn headroom(&self) -> u16
        ensures { result ≡ headroom_of (figures_of self.now) }
    {
        self.nameplate - self.own_derate - self.network_derate - self.kept_reserve - self.plan
    }
}

// A band scheme: a number of bands, and edges at rising percentages of the nameplate that end at 100.
pub trait BandScheme {
    ghost scheme: { Scheme };

    ghost BANDS: { ℕ };

    // The number of bands.
    const BANDS: usize;

    fn band_count() -> usize
        ensures { result ≡ scheme.bands }
    {
        Self::BANDS
    }

    // The percentage at which an edge lies: band k lies between the edges k and k + 1.
    fn percent(edge: usize) -> u8
        ensures { result ≡ scheme.percent edge };

    ghost counted: { BANDS ≡ scheme.bands };

    ghost rising: { Rising scheme };
}

// Gas and coal: 0, 50, 85, 100.
pub struct ThreeBands;

impl BandScheme for ThreeBands {
    ghost scheme = { three_bands };

    ghost BANDS = { 3 };

    const BANDS: usize = 3;

    ghost counted = { Prim.search rules };

    ghost rising = { Prim.search rules };

    fn percent(edge: usize) -> u8 {
        match edge {
            0 => 0,
            1 => 50,
            2 => 85,
            _ => 100,
        }
    }
}

// Hydro and storage: 0, 100.
pub struct OneBand;

impl BandScheme for OneBand {
    ghost scheme = { one_band };

    ghost BANDS = { 1 };

    const BANDS: usize = 1;

    ghost counted = { Prim.search rules };

    ghost rising = { Prim.search rules };

    fn percent(edge: usize) -> u8 {
        if edge == 0 { 0 } else { 100 }
    }
}

// The output at which an edge lies, in tenths, rounded down.
pub fn edge<S: BandScheme>(nameplate: u16, edge: usize) -> u32
    ensures { result ≡ edge_of S.scheme nameplate edge }
{
    u32::from(nameplate) * u32::from(S::percent(edge)) / 100
}

// The capacity of a band, in tenths: the part of the headroom's stretch between its edges, 0 for a band that there is not.
pub fn capacity<S: BandScheme>(figures: &UnitFigures, band: usize) -> u16
    ensures value { result ≡ capacity_of S.scheme (figures_of figures.now) band }
    ensures sum { AddsUp S.scheme (figures_of figures.now) }
    ensures sum_from_zero { AddsUpFromZero S.scheme (figures_of figures.now) }
    ensures worked { WorkedCapacities }
{
    if band >= S::band_count() {
        return 0;
    }
    let plan = u32::from(figures.plan);
    let top = plan + u32::from(figures.headroom());
    let low = edge::<S>(figures.nameplate, band).max(plan);
    let high = edge::<S>(figures.nameplate, band + 1).min(top);
    high.saturating_sub(low) as u16
}

impl Class {
    // The capacity of a unit's band under the scheme of its class.
    pub fn capacity(self, figures: &UnitFigures, band: usize) -> u16
        ensures { result ≡ capacity_of (scheme_of self) (figures_of figures.now) band }
    {
        match self {
            Class::Hydro | Class::Storage => capacity::<OneBand>(figures, band),
            _ => capacity::<ThreeBands>(figures, band),
        }
    }

    // The number of bands of the class.
    pub fn band_count(self) -> usize
        ensures { result ≡ (scheme_of self).bands }
    {
        match self {
            Class::Hydro | Class::Storage => OneBand::band_count(),
            _ => ThreeBands::band_count(),
        }
    }
}
