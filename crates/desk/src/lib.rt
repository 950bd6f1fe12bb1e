#![tactic(auto)]

// A day from bytes to bytes: a strip of tariffs and sheets go in, lines of text come out.
ghost use Rattle.std.specs.Prelude.{◌≡◌, ℕ, ◌≤◌, false, List, ◌++◌, length, is_ok, IfOk};
ghost use Rattle.market.specs.Entries.{market_answer};
ghost use Rattle.market.specs.Maxima.{listing_room};
ghost use Rattle.market.specs.Rows.{topmost};
ghost use Rattle.day.specs.Day.{shown, LedTo};
ghost use Rattle.lines.specs.Lines.{written};
ghost use Rattle.listings.specs.Listings.{closing_rows, filled, point_listing};
ghost use Rattle.loads.specs.Faults.{refusal_in, position_in};
ghost use Rattle.sheet.specs.Layout.{strip_bytes};
ghost use Rattle.desk.specs.Texts.{closing_text, cleared_desk, fault_line, needed_bytes, new_desk, posted_desk};
ghost use Rattle.desk.specs.Steps.{Closes, Decided, desk_of, Entering, Listed, SheetWorked, StripWorked, WindowDecides};

pub mod whole;

use arrayvec::ArrayVec;
use day::RunningDay;
use grids::GridScreen;
use lines::add_line;
use listings::{LISTING_ROOM, list_closing, list_point};
use loads::faults::LoadFault;
use loads::sheets::load;
use loads::strips::strip_onto;
use market::refusals::{MarketRefusal, Refusal};
pub use sheet::strip::STRIP_BYTES;

// The letter of a refusal's line.
const REFUSAL: u8 = b'E';

// The bytes that a refusal's line fits into.
const FAULT_ROOM: usize = 65;

// The bytes that the text of any step fits into.
const STEP_ROOM: usize = LISTING_ROOM;

// The buffer of a step.
type Room = [u8; STEP_ROOM];

// A running day, and the grid screen that all its points are cleared through. It ends only by `close`.
pub struct Desk {
    day: RunningDay,
    screen: GridScreen,
}

// What a step did: how many bytes of its window it read, and how many of its buffer it wrote. A step that a refusal ended read none, and the day
// does not go on.
#[derive(Clone, Copy, Debug, PartialEq, Eq)]
pub struct Step {
    pub read: Option<usize>,
    pub wrote: usize,
}

// How many bytes the sheet at the start of the window needs: ten until its header is there, then its stated length.
// A window that has them decides the sheet.
pub fn wanted(window: &[u8]) -> usize
    ensures need { result ≡ needed_bytes window.now }
    ensures decides { WindowDecides window.now }
{
    let [low, high, _, _, _, _, _, _, _, _, ..] = window else {
        return 10;
    };
    usize::from(u16::from_le_bytes([*low, *high]))
}

// Writes the line of a refusal from the start of the buffer on, and answers how long it is.
// It is added to a small page, whose writer leaves it out where it does not fit, and copied out: any refusal's line fits.
#[tactic(auto, using(listings::proofs::Texts::three_long), unfolding(lines::specs::Lines::written))]
fn write_fault(out: &mut Room, fault: LoadFault) -> usize
    ensures long { result ≡ length (fault_line (refusal_in fault, position_in fault)) }
    ensures few { result ≤ listing_room }
    ensures bytes { out.new ≡ written out.old 0 (fault_line (refusal_in fault, position_in fault)) }
{
    let refusal = Refusal::from(fault);
    let number = u64::from(refusal.number);
    let layer = u64::from(refusal.layer);
    let position = u64::from(fault.position());
    let mut line = ArrayVec::<u8, FAULT_ROOM>::new();
    let _ = add_line(&mut line, REFUSAL, &[number, layer, position]);
    let end = line.len();
    out[..end].copy_from_slice(line.as_slice());
    end
}

// Writes the listing of a cleared point, and answers how long it is.
fn write_listing(out: &mut Room, day: &RunningDay) -> usize
    requires { Listed (shown day.now) }
    ensures long { result ≡ length (point_listing (shown day.now)) }
    ensures few { result ≤ listing_room }
    ensures bytes { out.new ≡ written out.old 0 (point_listing (shown day.now)) }
{
    // The point is cleared and the buffer has room, so the answer is no error.
    list_point(day, out).unwrap_or(0)
}

impl Desk {
    // An empty day, and a screen with every limit at the most and every unit on grid 0.
    pub fn start() -> Desk
        ensures { desk_of result ≡ new_desk }
    {
        Desk {
            day: RunningDay::start(),
            screen: GridScreen::new(),
        }
    }

    // Clears the point through the screen, lists it and posts it. Answers how long the listing is.
    fn settle(&mut self, out: &mut Room) -> usize
        requires { Entering (desk_of self.old).0 }
        ensures shows { desk_of self.new ≡ posted_desk (cleared_desk (desk_of self.old)) }
        ensures long { result ≡ length (point_listing (cleared_desk (desk_of self.old)).0) }
        ensures few { result ≤ listing_room }
        ensures bytes { out.new ≡ written out.old 0 (point_listing (cleared_desk (desk_of self.old)).0) }
    {
        // The point is being entered, so the day takes both calls, and the listing has room: no answer is an error.
        let _ = self.day.clear(&mut self.screen);
        let end = write_listing(out, &self.day);
        let _ = self.day.post();
        end
    }

    // Sets the tariffs of the strip at the start of the window. A refusal's line is written, and the day does not go on.
    fn take_strip(&mut self, window: &[u8], out: &mut Room) -> Step
        ensures { StripWorked window.now (desk_of self.old) out.old self.new out.new result }
    {
        match strip_onto(&mut self.day, window) {
            Ok(()) => Step {
                read: Some(STRIP_BYTES),
                wrote: 0,
            },
            Err(fault) => Step {
                read: None,
                wrote: write_fault(out, fault),
            },
        }
    }

    // Loads the sheet at the start of the window; then the point is cleared, listed and posted. A refusal's line is written instead of the
    // listing, and the day does not go on.
    fn take_sheet(&mut self, window: &[u8], out: &mut Room) -> Step
        ensures { SheetWorked window.now (desk_of self.old) out.old self.new out.new result }
    {
        match load(&mut self.day, &mut self.screen, window) {
            Ok(()) => Step {
                read: Some(wanted(window)),
                wrote: self.settle(out),
            },
            Err(fault) => Step {
                read: None,
                wrote: write_fault(out, fault),
            },
        }
    }

    // Two calls and not one for both kinds of step: each promises by bytes of its own that it needs no more of the input.

    // Works the strip at the start of the window; with its 34 bytes there, it is as if the whole input were there. Declined with 13 where the
    // buffer has fewer than 8,192 bytes, and nothing is altered.
    pub fn work_strip(&mut self, window: &[u8], out: &mut [u8]) -> Result<Step, MarketRefusal>
        ensures answer { market_answer result ≡ topmost (closing_rows (length out.old)) }
        ensures worked { IfOk result (λ step. StripWorked window.now (desk_of self.old) out.old self.new out.new step) }
        ensures ahead { IfOk result (λ step. ((rest : List ℕ) → strip_bytes ≤ length window.now → StripWorked (window.now ++ rest) (desk_of self.old) out.old self.new out.new step)) }
        ensures declined { is_ok result ≡ false → (self.new ≡ self.old) × (out.new ≡ out.old) }
    {
        let Some(line_room) = out.first_chunk_mut() else {
            return Err(MarketRefusal::ShortBuffer);
        };
        Ok(self.take_strip(window, line_room))
    }

    // Works the sheet at the start of the window; with the bytes wanted there, or behind 96 points, it is as if the whole input were there.
    // Declined with 13 where the buffer has fewer than 8,192 bytes, and nothing is altered.
    pub fn work_sheet(&mut self, window: &[u8], out: &mut [u8]) -> Result<Step, MarketRefusal>
        ensures answer { market_answer result ≡ topmost (closing_rows (length out.old)) }
        ensures worked { IfOk result (λ step. SheetWorked window.now (desk_of self.old) out.old self.new out.new step) }
        ensures ahead { IfOk result (λ step. ((rest : List ℕ) → Decided window.now (desk_of self.old) → SheetWorked (window.now ++ rest) (desk_of self.old) out.old self.new out.new step)) }
        ensures declined { is_ok result ≡ false → (self.new ≡ self.old) × (out.new ≡ out.old) }
    {
        let Some(room) = out.first_chunk_mut() else {
            return Err(MarketRefusal::ShortBuffer);
        };
        Ok(self.take_sheet(window, room))
    }

    // Closes the day and lists its accounts, and answers how long the listing is. Declined with 13 where the buffer has fewer than 8,192
    // bytes: the day is closed, and no byte is written. Some list of calls led to the day, and for every list that did, it closes well.
    pub fn close(self, out: &mut [u8]) -> Result<usize, MarketRefusal>
        ensures answer { market_answer result ≡ topmost (closing_rows (length out.old)) }
        ensures long { IfOk result (λ n. n ≡ length (closing_text (desk_of self))) }
        ensures few { IfOk result (λ n. n ≤ listing_room) }
        ensures bytes { out.new ≡ filled result out.old (closing_text (desk_of self)) }
        ensures led { LedTo (desk_of self).0 }
        ensures promise { Closes (desk_of self).0 }
    {
        let Desk { day, screen: _ } = self;
        list_closing(&day.close(), out)
    }

    // Closes the day and writes its accounts, and answers how long they are.
    pub(crate) fn write_closing(self, out: &mut Room) -> usize
        ensures long { result ≡ length (closing_text (desk_of self)) }
        ensures few { result ≤ listing_room }
        ensures bytes { out.new ≡ written out.old 0 (closing_text (desk_of self)) }
        ensures led { LedTo (desk_of self).0 }
        ensures promise { Closes (desk_of self).0 }
    {
        // The buffer has room, so the answer is no error.
        self.close(out).unwrap_or(0)
    }
}
