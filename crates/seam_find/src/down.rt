// All rows of sums of a picture, from the top.
ghost use Rattle.std.specs.Prelude.{◌≡◌, true, map, length};
ghost use Rattle.energy.specs.Energy.{one_cost};
ghost use Rattle.seam_find.specs.Costing.{CostingLaws};
ghost use Rattle.seam_find.specs.Inner.Down.{DownNeeded, DownGiven, RowNeeded, RowWorked, RowGiven};

use crate::costing::Costing;
use crate::sums;
use energy::Method;
use pictures::AllowedSize;

// From the fenced sums of row 0 to those of the last row. What costs are read from stands at the front of the space; after it
// is written, row after row, where each column of a row comes from. energies and steps are for three rows each, next for one.
pub(crate) fn down<C: Costing>(
    space: &mut [u8],
    allowed: AllowedSize,
    method: Method,
    above: &mut [C::Sum],
    energies: &mut [u32],
    steps: &mut [C::Sum],
    next: &mut [C::Sum],
)
    requires laws { CostingLaws C.marked C.front C.costs C.dearest C.fence C.Sum.most C.Sum.fence }
    requires rows { DownNeeded C.Sum.most C.fence (C.front allowed.size) allowed.size (C.costs allowed.size method) space.old (map C.Sum.value above.old) (length energies.old) (length steps.old) (length next.old) }
    ensures { DownGiven C.Sum.most C.fence (C.front allowed.size) allowed.size (C.costs allowed.size method) space.old space.new (map C.Sum.value above.new) }
{
    // i is a row of the picture, and no place of a slice.
    for i in 1..allowed.size.height {
        row_down::<C>(space, allowed, method, i, above, energies, steps, next);
    }
}

// From the fenced sums of row i - 1 to those of row i.
fn row_down<C: Costing>(
    space: &mut [u8],
    allowed: AllowedSize,
    method: Method,
    i: usize,
    above: &mut [C::Sum],
    energies: &mut [u32],
    steps: &mut [C::Sum],
    next: &mut [C::Sum],
)
    requires { RowNeeded C.Sum.fence (C.front allowed.size) allowed.size i space.old (map C.Sum.value above.old) (length energies.old) (length steps.old) (length next.old) }
    ensures { RowGiven C.Sum.most C.Sum.fence (C.front allowed.size) allowed.size (C.costs allowed.size method) i space.old (map C.Sum.value above.old) space.new (map C.Sum.value above.new) }
{
    if method.energy.has_one_cost() {
        row_by_one::<C>(space, allowed, method, i, above, energies, steps, next);
    } else {
        row_by_steps::<C>(space, allowed, method, i, above, energies, steps, next);
    }
    let side = allowed.size.width + 1;
    above[1..side].copy_from_slice(next);
}

// The sums and the ways of row i, where a pixel costs the same wherever a path comes from: one row of costs is enough.
fn row_by_one<C: Costing>(
    space: &mut [u8],
    allowed: AllowedSize,
    method: Method,
    i: usize,
    above: &[C::Sum],
    energies: &mut [u32],
    steps: &mut [C::Sum],
    next: &mut [C::Sum],
)
    requires one { one_cost method.energy ≡ true }
    requires rows { RowNeeded C.Sum.fence (C.front allowed.size) allowed.size i space.old (map C.Sum.value above.now) (length energies.old) (length steps.old) (length next.old) }
    ensures { RowWorked C.Sum.most (C.front allowed.size) allowed.size (C.costs allowed.size method) i space.old (map C.Sum.value above.now) space.new (map C.Sum.value next.new) }
{
    let width = allowed.size.width;
    let front = C::front_bytes(allowed);
    let a = front + (i - 1) * width;
    let e = a + width;
    let cost = &mut steps[..width];
    C::cost_row(
        &space[..front],
        allowed,
        method,
        i,
        &mut energies[..width],
        cost,
    );
    sums::next_row(above, cost, next, &mut space[a..e]);
}

// The same by all three rows of costs.
fn row_by_steps<C: Costing>(
    space: &mut [u8],
    allowed: AllowedSize,
    method: Method,
    i: usize,
    above: &[C::Sum],
    energies: &mut [u32],
    steps: &mut [C::Sum],
    next: &mut [C::Sum],
)
    requires { RowNeeded C.Sum.fence (C.front allowed.size) allowed.size i space.old (map C.Sum.value above.now) (length energies.old) (length steps.old) (length next.old) }
    ensures { RowWorked C.Sum.most (C.front allowed.size) allowed.size (C.costs allowed.size method) i space.old (map C.Sum.value above.now) space.new (map C.Sum.value next.new) }
{
    let width = allowed.size.width;
    let front = C::front_bytes(allowed);
    let a = front + (i - 1) * width;
    let e = a + width;
    C::step_rows(&space[..front], allowed, method, i, energies, steps);
    sums::next_row_by_steps(above, steps, next, &mut space[a..e]);
}
