// The strip of tariffs.
ghost use Rattle.std.specs.Prelude.{◌≡◌, drop, IfOk};
ghost use Rattle.market.specs.Rows.{topmost};
ghost use Rattle.sheet.specs.Layout.{strip_bytes, tariffs_to, strip_rows, sheet_answer};

use super::records::Record;
use market::refusals::SheetRefusal;

// The tariffs of grids 0 to 15 and the branch's.
pub const TARIFFS: usize = 17;

// A strip has two bytes for each tariff.
pub const STRIP_BYTES: usize = 2 * TARIFFS;

// The seventeen tariffs of a strip, in fen, and the bytes behind it: those of grids 0 to 15, then the branch's.
pub fn strip(bytes: &[u8]) -> Result<([u32; TARIFFS], &[u8]), SheetRefusal>
    ensures answer { sheet_answer result ≡ topmost (strip_rows bytes.now) }
    ensures read { IfOk result (λ x. (x.0 ≡ tariffs_to 17 bytes.now) × (x.1.now ≡ drop strip_bytes bytes.now)) }
{
    let mut tariffs = [0; TARIFFS];
    let mut rest = bytes;
    for tariff in tariffs.iter_mut() {
        let (fen, behind) = u16::take(rest).ok_or(SheetRefusal::TooShort)?;
        *tariff = u32::from(fen);
        rest = behind;
    }
    Ok((tariffs, rest))
}
