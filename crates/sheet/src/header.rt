// The header of a sheet, and the check of a sheet by it.
ghost use Rattle.std.specs.Prelude.{◌≡◌, ◌+◌, ◌-◌, ◌*◌, ◌<◌, ◌≤◌, length, take, drop, IfOk, MatchOption};
ghost use Rattle.market.specs.Maxima.{unit_count, grid_count};
ghost use Rattle.market.specs.Rows.{topmost};
ghost use Rattle.sheet.specs.Layout.{header_bytes, unit_bytes, bid_bytes, limit_bytes, header_of, against_layout, sheet_rows, sheet_answer};

use super::records::{BidRecord, LimitRecord, Record};
use market::entries::RawOffer;
use market::maxima::{GRIDS, UNITS};
use market::refusals::SheetRefusal;

// What a sheet says first: its length in bytes, how many records of each kind it has, and its point.
#[derive(Clone, Copy, PartialEq, Eq, Debug)]
pub struct Header {
    pub length: u16,
    pub units: u16,
    pub bids: u16,
    pub limits: u16,
    pub point: u16,
}

impl Record for Header {
    ghost BYTES = { header_bytes };

    ghost at_start = { header_of };

    const BYTES: u16 = 10;

    fn take(bytes: &[u8]) -> Option<(Header, &[u8])> {
        let [a, b, c, d, e, f, g, h, i, j, rest @ ..] = bytes else {
            return None;
        };
        let header = Header {
            length: u16::from_le_bytes([*a, *b]),
            units: u16::from_le_bytes([*c, *d]),
            bids: u16::from_le_bytes([*e, *f]),
            limits: u16::from_le_bytes([*g, *h]),
            point: u16::from_le_bytes([*i, *j]),
        };
        Some((header, rest))
    }
}

impl Header {
    // Whether there are too many records, or the length is not that of the layout.
    fn against_layout(&self) -> bool
        ensures { result ≡ against_layout self.now }
    {
        u32::from(self.units) > UNITS
            || u32::from(self.bids) > GRIDS
            || u32::from(self.limits) > GRIDS
            || self.length
                != Header::BYTES
                    + RawOffer::BYTES * self.units
                    + BidRecord::BYTES * self.bids
                    + LimitRecord::BYTES * self.limits
    }
}

// A sheet that its header accepts: the header, and the bytes of the records that it counts.
#[derive(Clone, Copy)]
pub struct Sheet<'a> {
    pub header: Header,
    pub records: &'a [u8],
    ghost few: { (header.units ≤ unit_count) × (header.bids ≤ grid_count) × (header.limits ≤ grid_count) },
    ghost laid: { length records.now ≡ unit_bytes * header.units + bid_bytes * header.bids + limit_bytes * header.limits },
}

impl<'a> Sheet<'a> {
    // Checks a sheet by its header, for the point asked for.
    pub fn checked(bytes: &'a [u8], point: u16) -> Result<Sheet<'a>, SheetRefusal>
        ensures answer { sheet_answer result ≡ topmost (sheet_rows bytes.now point) }
        ensures read { IfOk result (λ x. (x.header ≡ header_of bytes.now) × (x.header.length ≤ length bytes.now) × (x.records.now ≡ take (x.header.length - header_bytes) (drop header_bytes bytes.now))) }
    {
        let (header, rest) = Header::take(bytes).ok_or(SheetRefusal::TooShort)?;
        let length = usize::from(header.length);
        if bytes.len() < length {
            return Err(SheetRefusal::TooShort);
        }
        if header.against_layout() {
            return Err(SheetRefusal::BadLayout);
        }
        if header.point != point {
            return Err(SheetRefusal::OtherPoint);
        }
        let records = &rest[..length - usize::from(Header::BYTES)];
        Ok(Sheet { header, records })
    }
}
