// A whole day in memory: from the bytes of an input to the bytes that are printed for it.
ghost use Rattle.std.specs.Prelude.{◌≡◌, suc, ◌++◌, IfOk, OnOk};
ghost use Rattle.market.specs.Maxima.{point_count};
ghost use Rattle.day.specs.Day.{LedTo};
ghost use Rattle.desk.specs.Texts.{closing_text, day_text, input_text, sheet_text, sheet_outcome, sheets_text};
ghost use Rattle.desk.specs.Steps.{Added, Closes, desk_of, EndsWell, SheetsEnough};

use super::{Desk, Room, STEP_ROOM, Step};
use market::maxima::POINTS;
use std::alloc::{AllocError, Global};

// Desk, buffer and text stay three parameters: each is said of apart, and the desk is given up in the end.

// Works one sheet, and adds what it prints to the text.
fn add_sheet(
    desk: &mut Desk,
    sheets: &[u8],
    out: &mut Room,
    text: &mut Vec<u8>,
) -> Result<Step, AllocError>
    ensures sheet { IfOk result (λ step. Added sheets.now (desk_of desk.old) (desk_of desk.new) step) }
    ensures text { IfOk result (λ step. text.new.items ≡ text.old.items ++ sheet_text (sheet_outcome sheets.now (desk_of desk.old))) }
{
    let step = desk.take_sheet(sheets, out);
    let wrote = step.wrote;
    text.extend_from_slice(&out[..wrote])?;
    Ok(step)
}

// Works sheets one behind the other, up to the first refusal or to the end. Behind 96 points one more is declined.
fn add_sheets(
    desk: &mut Desk,
    sheets: &[u8],
    out: &mut Room,
    text: &mut Vec<u8>,
) -> Result<(), AllocError>
    ensures { OnOk result (text.new.items ++ closing_text (desk_of desk.new) ≡ text.old.items ++ sheets_text (suc point_count) (desk_of desk.old) sheets.now) }
{
    let mut rest = sheets;
    // A sheet for each point, and one that is declined.
    for turn in 0..=POINTS {
        if rest.is_empty() {
            return Ok(());
        }
        let step = add_sheet(desk, rest, out, text)?;
        let Some(read) = step.read else {
            return Ok(());
        };
        rest = &rest[read..];
    }
    Ok(())
}

// Works the strip and then the sheets.
fn add_input(
    desk: &mut Desk,
    input: &[u8],
    out: &mut Room,
    text: &mut Vec<u8>,
) -> Result<(), AllocError>
    ensures { OnOk result (text.new.items ++ closing_text (desk_of desk.new) ≡ text.old.items ++ input_text (desk_of desk.old) input.now) }
{
    let step = desk.take_strip(input, out);
    let wrote = step.wrote;
    text.extend_from_slice(&out[..wrote])?;
    let Some(read) = step.read else {
        return Ok(());
    };
    add_sheets(desk, &input[read..], out, text)
}

// Adds the accounts of the day, closed as it stands.
fn add_closing(desk: Desk, out: &mut Room, text: &mut Vec<u8>) -> Result<(), AllocError>
    ensures text { OnOk result (text.new.items ≡ text.old.items ++ closing_text (desk_of desk)) }
    ensures led { LedTo (desk_of desk).0 }
    ensures promise { Closes (desk_of desk).0 }
{
    let wrote = desk.write_closing(out);
    text.extend_from_slice(&out[..wrote])
}

// All that is printed for an input. It ends with the accounts of a day that closes well, and no number of sheets is cut off.
pub fn clear_day(heap: Global, input: &[u8]) -> Result<Vec<u8>, AllocError>
    ensures text { IfOk result (λ text. text.items ≡ day_text input.now) }
    ensures accounts { IfOk result (λ text. EndsWell text.items) }
    ensures enough { SheetsEnough }
{
    let mut out = [0; STEP_ROOM];
    let mut text = Vec::new(heap);
    let mut desk = Desk::start();
    let worked = add_input(&mut desk, input, &mut out, &mut text);
    let closed = add_closing(desk, &mut out, &mut text);
    worked?;
    closed?;
    Ok(text)
}

#[cfg(test)]
mod tests {
    use super::clear_day;
    use std::test::Fail;

    // Tariffs of grid 1 and the branch; one sheet for point 1 with unit 0 on grid 1 and bids of grids 2 and 3.
    const WORKED: [u8; 81] = [
        0, 0, 244, 1, 0, 0, 0, 0, 0, 0, 0, 0, 0, 0, 0, 0, 0, 0, 0, 0, 0, 0, 0, 0, 0, 0, 0, 0, 0, 0,
        0, 0, 44, 1, 47, 0, 1, 0, 2, 0, 0, 0, 1, 0, 0, 1, 1, 120, 0, 0, 0, 0, 0, 0, 0, 0, 0, 164,
        1, 0, 0, 0, 0, 2, 100, 0, 0, 0, 248, 167, 0, 0, 3, 44, 1, 0, 0, 80, 195, 0, 0,
    ];

    // The same with grid 1 limited to 50.
    const LIMITED: [u8; 86] = [
        0, 0, 244, 1, 0, 0, 0, 0, 0, 0, 0, 0, 0, 0, 0, 0, 0, 0, 0, 0, 0, 0, 0, 0, 0, 0, 0, 0, 0, 0,
        0, 0, 44, 1, 52, 0, 1, 0, 2, 0, 1, 0, 1, 0, 0, 1, 1, 120, 0, 0, 0, 0, 0, 0, 0, 0, 0, 164,
        1, 0, 0, 0, 0, 2, 100, 0, 0, 0, 248, 167, 0, 0, 3, 44, 1, 0, 0, 80, 195, 0, 0, 1, 50, 0, 0,
        0,
    ];

    #[test]
    fn day_of_one_point(rt: HostRuntime) -> Result<(), Fail> {
        let text = clear_day(rt.alloc(), &WORKED)?;
        let wanted =
            b"P 1 3\nS 43000 120 42800\nA 0 0 120\nB 2 30\nB 3 90\nC 2 32100 0\nC 3 96300 0\nU 0 126000 0\nW 1 1500 0\nR 900 0\n";
        assert_eq!(rt; text.as_slice(), wanted.as_slice());
        Ok(())
    }

    #[test]
    fn day_with_its_seller_limited(rt: HostRuntime) -> Result<(), Fail> {
        let text = clear_day(rt.alloc(), &LIMITED)?;
        let wanted =
            b"P 1 3\nS 43000 50 42800\nA 0 0 50\nB 2 12\nB 3 38\nC 2 12840 0\nC 3 40660 0\nU 0 52500 0\nW 1 625 0\nR 375 0\n";
        assert_eq!(rt; text.as_slice(), wanted.as_slice());
        Ok(())
    }
}
