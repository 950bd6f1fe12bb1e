// A buffer of the caller as a page, and writers of one line each. They add it where there is room, which each asks for the length of its own line.
ghost use Rattle.std.specs.Prelude.{◌≡◌, ◌+◌, ◌*◌, ◌<◌, ◌≤◌, length};
ghost use Rattle.lines.specs.Lines.{line_of};
ghost use Rattle.listings.specs.Listings.{award_text, branch_line, money_text, point_line, segment_text, share_text};
ghost use Rattle.listings.specs.Pages.{Added};

use super::letters;
use book::Money;
use lines::write_line;

// A buffer of the caller, written from its start on up to an end.
#[derive(Drop)]
pub struct Page<'a> {
    pub buffer: &'a mut [u8],
    pub end: usize,
}

impl<'a> Page<'a> {
    // Adds a line that fits, which is never declined.
    fn add_line(&mut self, letter: u8, fields: &[u64])
        requires { self.old.end + length (line_of letter fields.now) ≤ length self.old.buffer.now }
        ensures { Added self.old self.new (line_of letter fields.now) }
    {
        if let Some(end) = write_line(self.buffer, self.end, letter, fields) {
            self.end = end;
        }
    }
}

// The day's point and its entry count.
#[tactic(auto, using(crate::proofs::Texts::two_long))]
pub fn write_point(page: &mut Page<'_>, posted: u8, entered: u32)
    requires { page.old.end + 44 ≤ length page.old.buffer.now }
    ensures { Added page.old page.new (point_line posted entered) }
{
    let fields = [u64::from(posted) + 1, u64::from(entered)];
    page.add_line(letters::POINT, &fields);
}

// Bid, quantity and price of a segment that sold something.
#[tactic(auto, using(crate::proofs::Texts::three_long, crate::proofs::Pages::added_none))]
pub fn write_segment(page: &mut Page<'_>, bid: u32, quantity: u32, price: u32)
    requires { page.old.end + 65 ≤ length page.old.buffer.now }
    ensures { Added page.old page.new (segment_text bid quantity price) }
{
    if quantity == 0 {
        return;
    }
    let fields = [u64::from(bid), u64::from(quantity), u64::from(price)];
    page.add_line(letters::SEGMENT, &fields);
}

// Unit, band and award of a place with an award.
#[tactic(auto, using(crate::proofs::Texts::award_long, crate::proofs::Pages::added_none))]
pub fn write_award(page: &mut Page<'_>, place: usize, award: u32)
    requires place { place < 256 }
    requires room { page.old.end + 18 ≤ length page.old.buffer.now }
    ensures { Added page.old page.new (award_text place award) }
{
    if award == 0 {
        return;
    }
    let fields = [(place / 4) as u64, (place % 4) as u64, u64::from(award)];
    page.add_line(letters::AWARD, &fields);
}

// A grid with a share, and its share.
#[tactic(auto, using(crate::proofs::Texts::two_long, crate::proofs::Pages::added_none))]
pub fn write_share(page: &mut Page<'_>, grid: usize, share: u32)
    requires { page.old.end + 44 ≤ length page.old.buffer.now }
    ensures { Added page.old page.new (share_text grid share) }
{
    if share == 0 {
        return;
    }
    let fields = [grid as u64, u64::from(share)];
    page.add_line(letters::SHARE, &fields);
}

// A grid or unit with money, and its money.
#[tactic(auto, using(crate::proofs::Texts::three_long, crate::proofs::Pages::added_none))]
pub fn write_money(page: &mut Page<'_>, letter: u8, who: u32, money: Money)
    requires { page.old.end + 65 ≤ length page.old.buffer.now }
    ensures { Added page.old page.new (money_text letter who (money.fen * 40 + money.fortieths)) }
{
    if money.fen == 0 && money.fortieths == 0 {
        return;
    }
    let fields = [u64::from(who), money.fen, money.fortieths];
    page.add_line(letter, &fields);
}

// The money of the branch.
#[tactic(auto, using(crate::proofs::Texts::two_long))]
pub fn write_branch(page: &mut Page<'_>, money: Money)
    requires { page.old.end + 44 ≤ length page.old.buffer.now }
    ensures { Added page.old page.new (branch_line (money.fen * 40 + money.fortieths)) }
{
    let fields = [money.fen, money.fortieths];
    page.add_line(letters::BRANCH, &fields);
}
