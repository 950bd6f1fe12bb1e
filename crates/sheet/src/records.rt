// The records of a sheet: each takes its bytes from the start and gives the bytes behind it.
ghost use Rattle.std.specs.Prelude.{◌≡◌, ℕ, ◌+◌, ◌*◌, ◌<◌, ◌≤◌, List, length, drop, MatchOption};
ghost use Rattle.sheet.specs.Layout.{unit_bytes, bid_bytes, limit_bytes, word16, unit_at, bid_at, limit_at};

use market::entries::RawOffer;

// What stands in a sheet or a strip in a fixed number of bytes.
pub trait Record {
    // How many bytes it has.
    ghost BYTES: { ℕ };

    // The one at the start of the bytes.
    ghost at_start: { List ℕ → Self };

    const BYTES: u16;

    // The one at the start of the bytes, and the bytes behind it; none where fewer than it has are there.
    fn take(bytes: &[u8]) -> Option<(Self, &[u8])>
        ensures { MatchOption result (length bytes.now < BYTES) (λ x. (BYTES ≤ length bytes.now) × (x.0 ≡ at_start bytes.now) × (x.1.now ≡ drop BYTES bytes.now)) };
}

// A bid as it stands in a sheet, unchecked.
#[derive(Clone, Copy, PartialEq, Eq, Debug)]
pub struct BidRecord {
    pub grid: u32,
    pub price: u32,
    pub need: u32,
}

// A grid's limit as it stands in a sheet, unchecked.
#[derive(Clone, Copy, PartialEq, Eq, Debug)]
pub struct LimitRecord {
    pub grid: u32,
    pub limit: u32,
}

// The number of 16 bits that two bytes say.
fn word(low: u8, high: u8) -> u32
    ensures { result ≡ low + high * 256 }
{
    u32::from(u16::from_le_bytes([low, high]))
}

// A number of 16 bits.
impl Record for u16 {
    ghost BYTES = { 2 };

    ghost at_start = { λ s. word16 s 0 };

    const BYTES: u16 = 2;

    fn take(bytes: &[u8]) -> Option<(u16, &[u8])> {
        let [low, high, rest @ ..] = bytes else {
            return None;
        };
        Some((u16::from_le_bytes([*low, *high]), rest))
    }
}

impl Record for RawOffer {
    ghost BYTES = { unit_bytes };

    ghost at_start = { unit_at };

    const BYTES: u16 = 19;

    fn take(bytes: &[u8]) -> Option<(RawOffer, &[u8])> {
        let [unit, grid, class, words @ ..] = bytes else {
            return None;
        };
        let [a, b, c, d, e, f, g, h, i, j, k, l, m, n, o, p, rest @ ..] = words else {
            return None;
        };
        let offer = RawOffer {
            unit: u32::from(*unit),
            grid: u32::from(*grid),
            class: u32::from(*class),
            nameplate: word(*a, *b),
            own_derate: word(*c, *d),
            network_derate: word(*e, *f),
            kept_reserve: word(*g, *h),
            plan: word(*i, *j),
            offers: [word(*k, *l), word(*m, *n), word(*o, *p), 0],
        };
        Some((offer, rest))
    }
}

impl Record for BidRecord {
    ghost BYTES = { bid_bytes };

    ghost at_start = { bid_at };

    const BYTES: u16 = 9;

    fn take(bytes: &[u8]) -> Option<(BidRecord, &[u8])> {
        let [grid, a, b, c, d, e, f, g, h, rest @ ..] = bytes else {
            return None;
        };
        let bid = BidRecord {
            grid: u32::from(*grid),
            need: u32::from_le_bytes([*a, *b, *c, *d]),
            price: u32::from_le_bytes([*e, *f, *g, *h]),
        };
        Some((bid, rest))
    }
}

impl Record for LimitRecord {
    ghost BYTES = { limit_bytes };

    ghost at_start = { limit_at };

    const BYTES: u16 = 5;

    fn take(bytes: &[u8]) -> Option<(LimitRecord, &[u8])> {
        let [grid, a, b, c, d, rest @ ..] = bytes else {
            return None;
        };
        let limit = LimitRecord {
            grid: u32::from(*grid),
            limit: u32::from_le_bytes([*a, *b, *c, *d]),
        };
        Some((limit, rest))
    }
}
