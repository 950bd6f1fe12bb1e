// The letters of the kinds of line. Constants, since each writer has one letter of its own, and no code asks a line for its kind.
pub const POINT: u8 = b'P';

pub const SEGMENT: u8 = b'S';

pub const AWARD: u8 = b'A';

pub const SHARE: u8 = b'B';

pub const CHARGE: u8 = b'C';

pub const UNIT: u8 = b'U';

pub const WIRES: u8 = b'W';

pub const BRANCH: u8 = b'R';
