// Finding the seam of a picture by costs that are kept in planes of numbers.
#![tactic(auto)]

mod down;
mod rows;
mod sums;
mod trace;
mod words;

ghost use Rattle.std.specs.Prelude.{◌≡◌, ◌≤◌, ℕ, true, eqb, length, get_or};
ghost use Rattle.energy.specs.Energy.{one_cost};
ghost use Rattle.seam_find_kept.specs.Finding.{costs_in, FindAsked, FindGiven};
ghost use Rattle.seam_find_kept.specs.Inner.Down.{PlanesNeeded};
ghost use Rattle.seam_find_kept.specs.Inner.Trace.{SeamNeeded, ByGiven};

use energy::Method;
use pictures::{AllowedSize, Size};
use sums::Sum;

// Planes of costs, two bytes a number: of coming from straight above, from the left and from the right. Where a pixel costs the same
// wherever a path comes from, the first has all, and the others may be empty.
#[derive(Clone, Copy, Debug, PartialEq, Eq)]
pub struct CostPlanes<'a> {
    pub up: &'a [u8],
    pub left: &'a [u8],
    pub right: &'a [u8],
}

// Finds the cheapest path through the first `width` columns of planes that were made for a picture of this size, and puts it into the front
// of `seam` from the top row. Sums are worked out in `sums`; what then stands there is of no account. Where `is_narrow` says so they are
// kept in 16 bits, a third of the work, and in 32 bits only if the path costs too much for them; gives whether 16 bits were enough. Where a
// plane or a space isn't as long as it must be, nothing is promised but the lengths.
pub fn find_kept(
    costs: CostPlanes<'_>,
    size: Size,
    width: usize,
    method: Method,
    is_narrow: bool,
    sums: &mut [u8],
    seam: &mut [u16],
) -> bool
    ensures long { (length sums.new ≡ length sums.old) × (length seam.new ≡ length seam.old) }
    ensures found { FindAsked size width (one_cost method.energy)
        (length costs.entry.up.now) (length costs.entry.left.now) (length costs.entry.right.now)
        (length sums.old) (length seam.old)
        → FindGiven size width (costs_in method.energy size width costs.entry.up.now costs.entry.left.now costs.entry.right.now)
        is_narrow seam.old result seam.new }
{
    if !is_asked(costs, size, width, method, sums.len(), seam.len()) {
        return is_narrow;
    }
    if is_narrow && find_by::<u16>(costs, size, width, method, sums, seam) {
        return true;
    }
    let _ = find_by::<u32>(costs, size, width, method, sums, seam);
    false
}

// Finds it by sums of this width, where these are wide enough: where the path costs less than the largest of them. Says whether they are;
// else nothing is written but sums.
fn find_by<S: Sum>(
    costs: CostPlanes<'_>,
    size: Size,
    width: usize,
    method: Method,
    sums: &mut [u8],
    seam: &mut [u16],
) -> bool
    requires planes { PlanesNeeded size width (one_cost method.energy) costs.up.now (length costs.left.now) (length costs.right.now) }
    requires room { SeamNeeded S.bytes size width (length seam.old) (length sums.old) }
    ensures long { length sums.new ≡ length sums.old }
    ensures found { ByGiven S.most size width
        (costs_in method.energy size width costs.entry.up.now costs.entry.left.now costs.entry.right.now) seam.old result seam.new }
{
    let column = down::make_sums::<S>(costs, size, width, method, sums);
    let stride = S::row_bytes(width + 2);
    let at = (size.height - 1) * stride;
    if S::at(&sums[at..at + stride], column + 1).is_most() {
        return false;
    }
    trace::trace_sums::<S>(costs, size, width, method, column, sums, seam);
    true
}

// Whether planes and spaces are as long as they must be, `sums` and `seam` being those of the spaces.
fn is_asked(
    costs: CostPlanes<'_>,
    size: Size,
    width: usize,
    method: Method,
    sums: usize,
    seam: usize,
) -> bool
    ensures asked { result ≡ true → FindAsked size width (one_cost method.energy)
        (length costs.entry.up.now) (length costs.entry.left.now) (length costs.entry.right.now) sums seam }
    ensures bytes { result ≡ true → (i : ℕ) → get_or costs.entry.up.now i 0 ≤ 255 }
    ensures served { FindAsked size width (one_cost method.energy)
        (length costs.entry.up.now) (length costs.entry.left.now) (length costs.entry.right.now) sums seam → result ≡ true }
{
    let Ok(allowed) = AllowedSize::new(size) else {
        return false;
    };
    let bytes = 2 * allowed.pixels();
    let is_long = method.energy.has_one_cost()
        || is_plane(costs.left, bytes) && is_plane(costs.right, bytes);
    0 < width
        && width <= size.width
        && is_plane(costs.up, bytes)
        && is_long
        && size.height * (4 * (width + 2)) <= sums
        && size.height <= seam
}

// Whether a plane is this many bytes long. The second promise holds of every plane: none of its bytes is above 255.
fn is_plane(plane: &[u8], bytes: usize) -> bool
    ensures long { result ≡ eqb (length plane.now) bytes }
    ensures bytes { (i : ℕ) → get_or plane.now i 0 ≤ 255 }
{
    plane.len() == bytes
}
