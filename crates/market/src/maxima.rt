// The ranges and maxima of the market's figures by name, for code to compare with.

// Units are 0 to 63.
pub const UNITS: u32 = 64;

// Grids are 0 to 15.
pub const GRIDS: u32 = 16;

// The grid that is the branch's own dispatch.
pub const BRANCH_DISPATCH: u32 = 15;

// Places are 0 to 255.
pub const PLACES: u32 = 256;

// The most of a unit's five figures, of a cap and of a room, in tenths.
pub const MAX_FIGURE: u32 = 20_000;

// The most of a need, in tenths.
pub const MAX_NEED: u32 = 200_000;

// The most of a bid, in fen.
pub const MAX_PRICE: u32 = 200_000;

// The most of an offer, in yuan.
pub const MAX_OFFER: u32 = 1_000;

// The most of a tariff, in fen.
pub const MAX_TARIFF: u32 = 50_000;

// The most of a screen's limit, in tenths.
pub const MAX_LIMIT: u32 = 6_000_000;

// The points of a day.
pub const POINTS: u8 = 96;

// The most entries of a day.
pub const MAX_ENTRIES: u32 = 1_000_000_000;
