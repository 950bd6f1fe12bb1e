#![tactic(auto)]

// The offers and bids of one quarter hour, of which `explain` and `dayaccount` tell.
use market::entries::RawOffer;

// A bid as it is handed over, unchecked. Not the record of a sheet, since the programs that tell of it read none.
#[derive(Clone, Copy, PartialEq, Eq, Debug)]
pub struct RawBid {
    pub grid: u32,
    pub price: u32,
    pub need: u32,
}

// Figures and offers that are all 0.
const IDLE: RawOffer = RawOffer {
    unit: 0,
    grid: 0,
    class: 0,
    nameplate: 0,
    own_derate: 0,
    network_derate: 0,
    kept_reserve: 0,
    plan: 0,
    offers: [0; 4],
};

// Units 0 and 3 on grid 1, units 7, 9 and 12 on grid 4. Unit 12 declares more than its nameplate and is declined.
pub const OFFERS: [RawOffer; 5] = [
    RawOffer {
        unit: 0,
        grid: 1,
        class: 1,
        nameplate: 2_000,
        kept_reserve: 80,
        plan: 1_800,
        offers: [420, 0, 0, 0],
        ..IDLE
    },
    RawOffer {
        unit: 3,
        grid: 1,
        class: 3,
        nameplate: 6_000,
        own_derate: 100,
        kept_reserve: 200,
        plan: 4_000,
        offers: [380, 400, 430, 0],
        ..IDLE
    },
    RawOffer {
        unit: 7,
        grid: 4,
        class: 4,
        nameplate: 3_000,
        plan: 2_940,
        offers: [410, 410, 412, 0],
        ..IDLE
    },
    RawOffer {
        unit: 9,
        grid: 4,
        class: 4,
        nameplate: 3_000,
        plan: 2_960,
        offers: [410, 410, 412, 0],
        ..IDLE
    },
    RawOffer {
        unit: 12,
        grid: 4,
        class: 6,
        nameplate: 3_000,
        own_derate: 500,
        plan: 2_600,
        offers: [300, 300, 300, 0],
        ..IDLE
    },
];

// A unit that is offered and then withdrawn.
pub const WITHDRAWN: RawOffer = RawOffer {
    unit: 20,
    grid: 4,
    class: 2,
    nameplate: 500,
    plan: 400,
    offers: [390, 0, 0, 0],
    ..IDLE
};

// The bids of grids 2, 3 and 5.
pub const BIDS: [RawBid; 3] = [
    RawBid {
        grid: 2,
        price: 41_000,
        need: 300,
    },
    RawBid {
        grid: 3,
        price: 43_000,
        need: 850,
    },
    RawBid {
        grid: 5,
        price: 50_000,
        need: 20,
    },
];
