// The way back from the last row to the first, by the sums.
ghost use Rattle.std.specs.Prelude.{◌≡◌, false, ◌++◌, ◌-◌, ◌+◌, ◌<◌, length, get_or, drop};
ghost use Rattle.grids.specs.Table.{table};
ghost use Rattle.grids.specs.Rows.{flat};
ghost use Rattle.energy.specs.Energy.{one_cost};
ghost use Rattle.seam_sums.specs.Fences.{fence32};
ghost use Rattle.seam_theory.specs.Sums.{way_of3, came_from, ways_up, columns_to};
ghost use Rattle.seam_find.specs.ByCosts.{least_sum};
ghost use Rattle.seam_find_kept.specs.Finding.{costs_in};
ghost use Rattle.seam_find_kept.specs.Inner.Down.{PlanesNeeded, RowsGiven};
ghost use Rattle.seam_find_kept.specs.Inner.Trace.{SeamNeeded, StepNeeded, WayNeeded};

use crate::CostPlanes;
use crate::sums::Sum;
use crate::words::pair_at;
use energy::Method;
use pictures::Size;
use seam_sums::way;

// The columns of the path to `column` of the last row, put into the front of seam from the top row.
pub(crate) fn trace_sums<S: Sum>(
    costs: CostPlanes<'_>,
    size: Size,
    width: usize,
    method: Method,
    column: usize,
    sums: &[u8],
    seam: &mut [u16],
)
    requires planes { PlanesNeeded size width (one_cost method.energy) costs.up.now (length costs.left.now) (length costs.right.now) }
    requires rows { RowsGiven S.bytes S.most S.held (costs_in method.energy size width costs.up.now costs.left.now costs.right.now)
        size width sums.now column }
    requires enough { least_sum fence32 width size.height (costs_in method.energy size width costs.up.now costs.left.now costs.right.now) < S.most }
    requires seam_room { SeamNeeded S.bytes size width (length seam.old) (length sums.now) }
    ensures { seam.new ≡ columns_to
        (flat (table
        (ways_up false fence32 width (costs_in method.energy size width costs.entry.up.now costs.entry.left.now costs.entry.right.now))
        (size.height - 1))) width (size.height - 1) column ++ drop size.height seam.old }
{
    let stride = S::row_bytes(width + 2);
    let mut c = column;
    for i in (0..size.height - 1).rev() {
        seam[i + 1] = c as u16;
        let at = i * stride;
        c = step_up::<S>(costs, size, width, method, i, c, &sums[at..at + stride]);
    }
    seam[0] = c as u16;
}

// The column of row i from which the cheapest path to column c of row i + 1 comes, where `row` has the fenced sums of row i. A fence is
// never the least, so that no edge is passed.
fn step_up<S: Sum>(
    costs: CostPlanes<'_>,
    size: Size,
    width: usize,
    method: Method,
    i: usize,
    c: usize,
    row: &[u8],
) -> usize
    requires planes { PlanesNeeded size width (one_cost method.energy) costs.up.now (length costs.left.now) (length costs.right.now) }
    requires row { StepNeeded (costs_in method.energy size width costs.up.now costs.left.now costs.right.now)
        S.most size width i c (S.held row.now) }
    ensures { result ≡ came_from width c
        (get_or
        (ways_up false fence32 width (costs_in method.energy size width costs.entry.up.now costs.entry.left.now costs.entry.right.now) i)
        c 0) }
{
    c + way_up::<S>(costs, size, width, method, i, c, row) as usize - 1
}

// Which of the three columns of row i that is, the left one, the middle one or the right one by 0, 1 or 2.
fn way_up<S: Sum>(
    costs: CostPlanes<'_>,
    size: Size,
    width: usize,
    method: Method,
    i: usize,
    c: usize,
    row: &[u8],
) -> u8
    requires planes { PlanesNeeded size width (one_cost method.energy) costs.up.now (length costs.left.now) (length costs.right.now) }
    requires row { WayNeeded size width i c (S.held row.now) }
    ensures { result ≡ way_of3 false width (S.held row.now)
        (costs_in method.energy size width costs.entry.up.now costs.entry.left.now costs.entry.right.now (i + 1)) c }
{
    let left = S::at(row, c).number();
    let up = S::at(row, c + 1).number();
    let right = S::at(row, c + 2).number();
    if method.energy.has_one_cost() {
        return way(left, up, right);
    }
    let at = (i + 1) * size.width + c;
    let left = left + u32::from(pair_at(costs.left, at));
    let up = up + u32::from(pair_at(costs.up, at));
    let right = right + u32::from(pair_at(costs.right, at));
    way(left, up, right)
}
