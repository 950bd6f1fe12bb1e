// The lines of a declaration.
ghost use Rattle.std.specs.Prelude.{◌≡◌, ◌+◌, ◌*◌, ◌≤◌, length, slice_index};
ghost use Rattle.market.specs.Maxima.{grid_count, place_count};
ghost use Rattle.listings.specs.Listings.{award_text, lines_to, share_text};
ghost use Rattle.listings.specs.Pages.{Added};
ghost use Rattle.listings.specs.Rows.{row_text};

use super::writing::{Page, write_award, write_segment, write_share};
use clearing::points::Segment;

// The segments, as they stand in their rows.
pub fn write_segments(page: &mut Page<'_>, segments: &[Segment])
    requires { page.old.end + 65 * length segments.now ≤ length page.old.buffer.now }
    ensures text { Added page.old page.new (lines_to (length segments.now) (row_text segments.now)) }
    ensures few { page.new.end ≤ page.old.end + 65 * length segments.now }
{
    for segment in segments {
        write_segment(page, segment.bid, segment.quantity, segment.price);
    }
}

// The awards by place.
pub fn write_awards(page: &mut Page<'_>, awards: &[u32; 256])
    requires { page.old.end + 4608 ≤ length page.old.buffer.now }
    ensures text { Added page.old page.new (lines_to place_count (λ p. award_text p (slice_index awards.now p))) }
    ensures few { page.new.end ≤ page.old.end + 4608 }
{
    for (place, award) in awards.iter().enumerate() {
        write_award(page, place, *award);
    }
}

// The shares by grid.
pub fn write_shares(page: &mut Page<'_>, got: &[u32; 16])
    requires { page.old.end + 704 ≤ length page.old.buffer.now }
    ensures text { Added page.old page.new (lines_to grid_count (λ g. share_text g (slice_index got.now g))) }
    ensures few { page.new.end ≤ page.old.end + 704 }
{
    for (grid, share) in got.iter().enumerate() {
        write_share(page, grid, *share);
    }
}
