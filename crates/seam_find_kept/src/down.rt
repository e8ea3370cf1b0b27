// All rows of sums, from the top.
ghost use Rattle.std.specs.Prelude.{◌≡◌, false, ◌+◌, ◌*◌, ◌≤◌, ◌<◌, min, length, get_or, take};
ghost use Rattle.grids.specs.Table.{table};
ghost use Rattle.energy.specs.Energy.{one_cost};
ghost use Rattle.pictures.specs.Limits.{most_side};
ghost use Rattle.pictures.specs.Numbers.{numbers_in};
ghost use Rattle.seam_theory.specs.Sums.{fenced};
ghost use Rattle.seam_sums.specs.Fences.{fence32};
ghost use Rattle.seam_find_kept.specs.Finding.{costs_in};
ghost use Rattle.seam_find_kept.specs.Inner.Down.{PlanesNeeded, SpaceNeeded, RowNeeded, RowsAbove, RowsGiven};
ghost use Rattle.seam_theory.proofs.Kept.{kept_sum};

use crate::sums::Sum;
use crate::{CostPlanes, rows};
use energy::Method;
use pictures::Size;

// Works out the sums of all rows where they are kept, in `sums`, row after row, each between two fences; gives the column where the
// cheapest path ends. A row is worked out from the row above it as it stands there, so that none is copied.
pub(crate) fn make_sums<S: Sum>(
    costs: CostPlanes<'_>,
    size: Size,
    width: usize,
    method: Method,
    sums: &mut [u8],
) -> usize
    requires planes { PlanesNeeded size width (one_cost method.energy) costs.up.now (length costs.left.now) (length costs.right.now) }
    requires space { SpaceNeeded S.bytes size width (length sums.old) }
    ensures { RowsGiven S.bytes S.most S.held (costs_in method.energy size width costs.entry.up.now costs.entry.left.now costs.entry.right.now)
        size width sums.new result }
{
    let stride = S::row_bytes(width + 2);
    first_sums::<S>(costs.up, width, sums);
    for i in 1..size.height {
        next_sums::<S>(costs, size, width, method, i, sums);
    }
    let at = (size.height - 1) * stride;
    rows::least_column::<S>(&sums[at..at + stride], width)
}

// Row 0 with its fences, from the plane of what coming from straight above costs.
fn first_sums<S: Sum>(up: &[u8], width: usize, sums: &mut [u8])
    requires costs { 2 * width ≤ length up.now }
    requires narrow { width ≤ most_side }
    requires room { (width + 2) * S.bytes ≤ length sums.old }
    ensures { S.held (take ((width + 2) * S.bytes) sums.new)
        ≡ fenced false (min S.most fence32) width (numbers_in (take (2 * width) up.now)) }
{
    let (left, rest) = sums.split_at_mut(S::bytes());
    let (next, right) = rest.split_at_mut(S::row_bytes(width));
    put_fences::<S>(left, right);
    rows::first_row::<S>(&up[..2 * width], width, next);
}

// Row i with its fences, from the row above it.
fn next_sums<S: Sum>(
    costs: CostPlanes<'_>,
    size: Size,
    width: usize,
    method: Method,
    i: usize,
    sums: &mut [u8],
)
    requires planes { PlanesNeeded size width (one_cost method.energy) costs.up.now (length costs.left.now) (length costs.right.now) }
    requires rows { RowsAbove S.bytes S.most S.held (costs_in method.energy size width costs.up.now costs.left.now costs.right.now) size width i sums.old }
    requires inside { i < size.height }
    ensures { RowsAbove S.bytes S.most S.held (costs_in method.energy size width costs.entry.up.now costs.entry.left.now costs.entry.right.now)
        size width (i + 1) sums.new }
{
    let stride = S::row_bytes(width + 2);
    let (above, rest) = sums.split_at_mut(i * stride);
    let (left, rest) = rest.split_at_mut(S::bytes());
    let (next, right) = rest.split_at_mut(S::row_bytes(width));
    put_fences::<S>(left, right);
    let last = (i - 1) * stride;
    row_sums::<S>(costs, size, width, method, i, &above[last..], next);
}

// A fence, which is more than any sum, put at the front of what stands on either side of a row.
fn put_fences<S: Sum>(left: &mut [u8], right: &mut [u8])
    requires left { 0 < length (S.held left.old) }
    requires right { 0 < length (S.held right.old) }
    ensures left { get_or (S.held left.new) 0 0 ≡ min S.most fence32 }
    ensures right { get_or (S.held right.new) 0 0 ≡ min S.most fence32 }
{
    S::make_fence().put(left, 0);
    S::make_fence().put(right, 0);
}

// The sums of row i, from the fenced sums of the row above it.
fn row_sums<S: Sum>(
    costs: CostPlanes<'_>,
    size: Size,
    width: usize,
    method: Method,
    i: usize,
    above: &[u8],
    next: &mut [u8],
)
    requires planes { PlanesNeeded size width (one_cost method.energy) costs.up.now (length costs.left.now) (length costs.right.now) }
    requires row { RowNeeded size width i (S.held above.now) (length (S.held next.old)) }
    ensures { S.held next.new ≡ table
        (kept_sum S.most (S.held above.now)
        (costs_in method.energy size width costs.entry.up.now costs.entry.left.now costs.entry.right.now i)) width }
{
    let at = i * (2 * size.width);
    let end = at + 2 * width;
    let up = &costs.up[at..end];
    if method.energy.has_one_cost() {
        rows::row_by_one::<S>(above, up, width, next);
    } else {
        let left = &costs.left[at..end];
        let right = &costs.right[at..end];
        rows::row_by_steps::<S>(above, up, left, right, width, next);
    }
}
