#![tactic(auto)]

// Lines of decimal fields, added to a page of fixed room or written into a buffer of the caller.
ghost use Rattle.std.specs.Prelude.{◌≡◌, ℕ, ◌+◌, ◌≤◌, ◌↔◌, List, ◌++◌, length, is_ok, IsOk, OnOk, OnErr};
ghost use Rattle.arrayvec.specs.ArrayVec.{array_vec_len};
ghost use Rattle.lines.specs.Lines.{DigitsAreDigits, DigitsReadBack, NoLeadingZero, WorkedLine, field, fits_room, line_of};

mod slices;

use arrayvec::{ArrayVec, CapacityError};
use itoa::Buffer;
pub use slices::write_line;

// Adds a field, or a part of it where the page has no room. `itoa` gives the digits, since std's clauses promise no success of a `write!` that fits.
#[tactic(auto, using(crate::proofs::Digits::digits_displayed))]
fn add_field<const ROOM: usize>(
    page: &mut ArrayVec<u8, ROOM>,
    number: u64,
) -> Result<(), CapacityError>
    ensures room { IsOk result ↔ (array_vec_len page.old + length (field number) ≤ ROOM) }
    ensures field { OnOk result (page.new.items ≡ page.old.items ++ field number) }
    ensures kept { (more : List ℕ) × (page.new.items ≡ page.old.items ++ more) }
{
    let mut digits = Buffer::new();
    page.try_extend_from_slice(b" ")?;
    page.try_extend_from_slice(digits.format(number).as_bytes())
}

// Adds a line, or a part of it where the page has no room.
#[tactic(auto, unfolding(crate::specs::Lines::line_of))]
fn add_parts<const ROOM: usize>(
    page: &mut ArrayVec<u8, ROOM>,
    letter: u8,
    fields: &[u64],
) -> Result<(), CapacityError>
    ensures room { IsOk result ↔ (array_vec_len page.old + length (line_of letter fields.now) ≤ ROOM) }
    ensures line { OnOk result (page.new.items ≡ page.old.items ++ line_of letter fields.now) }
    ensures kept { (more : List ℕ) × (page.new.items ≡ page.old.items ++ more) }
{
    page.try_extend_from_slice(&[letter])?;
    for number in fields {
        add_field(page, *number)?;
    }
    page.try_extend_from_slice(b"\n")
}

// Adds a line to a page. Where it does not fit the page stays as it is.
pub fn add_line<const ROOM: usize>(
    page: &mut ArrayVec<u8, ROOM>,
    letter: u8,
    fields: &[u64],
) -> Result<(), CapacityError>
    ensures answer { is_ok result ≡ fits_room ROOM (array_vec_len page.old) (line_of letter fields.now) }
    ensures line { OnOk result (page.new.items ≡ page.old.items ++ line_of letter fields.now) }
    ensures declined { OnErr result (page.new.items ≡ page.old.items) }
    ensures read_back { DigitsReadBack }
    ensures figures { DigitsAreDigits }
    ensures leading { NoLeadingZero }
    ensures worked { WorkedLine }
{
    let held = page.len();
    let answer = add_parts(page, letter, fields);
    if answer.is_err() {
        page.truncate(held);
    }
    answer
}
