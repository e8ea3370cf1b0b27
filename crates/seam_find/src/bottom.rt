// The end of the cheapest path of a picture.
ghost use Rattle.std.specs.Prelude.{◌≡◌, map, length};
ghost use Rattle.seam_find.specs.Inner.Bottom.{BottomNeeded, BottomGiven, BottomWithNeeded};

use crate::costing::Costing;
use crate::down::down;
use energy::Method;
use pictures::{AllowedSize, LARGEST_SIDE};
use seam_sums::{Number, first_least};

// The column where the path ends, in the last row, and what the path costs.
#[derive(Clone, Copy, Debug, PartialEq, Eq)]
pub(crate) struct Bottom<N> {
    pub(crate) column: usize,
    pub(crate) sum: N,
}

// Works out all sums of the picture at the front of the space. After what costs are read from is written where each column of
// a row comes from. Its rows stand on the stack, each as long as the widest: nothing is allocated.
pub(crate) fn find_bottom<C: Costing>(
    space: &mut [u8],
    allowed: AllowedSize,
    method: Method,
) -> Bottom<C::Sum>
    requires { BottomNeeded (C.front allowed.size) allowed.size space.old }
    ensures { BottomGiven C.Sum.most C.fence (C.front allowed.size) allowed.size (C.costs allowed.size method) space.old space.new result.column (C.Sum.value result.sum) }
{
    let width = allowed.size.width;
    let both = width + 2;
    let fence = C::Sum::make_fence();
    let mut above = [fence; LARGEST_SIDE + 2];
    let mut energies = [0u32; 3 * LARGEST_SIDE];
    let zero = C::Sum::make_zero();
    let mut steps = [zero; 3 * LARGEST_SIDE];
    let mut next = [zero; LARGEST_SIDE];
    bottom_with::<C>(
        space,
        allowed,
        method,
        &mut above[..both],
        &mut energies[..3 * width],
        &mut steps[..3 * width],
        &mut next[..width],
    )
}

// The same with room for the fenced sums of a row, which is all fence, for three rows of energies, as there are three ways to come to a
// pixel, for three of costs and for one of sums. The four are arguments, here and for each row: a struct that lends them would be
// opened and closed again at every row.
fn bottom_with<C: Costing>(
    space: &mut [u8],
    allowed: AllowedSize,
    method: Method,
    above: &mut [C::Sum],
    energies: &mut [u32],
    steps: &mut [C::Sum],
    next: &mut [C::Sum],
) -> Bottom<C::Sum>
    requires { BottomWithNeeded C.Sum.fence (C.front allowed.size) allowed.size space.old (map C.Sum.value above.old) (length energies.old) (length steps.old) (length next.old) }
    ensures { BottomGiven C.Sum.most C.fence (C.front allowed.size) allowed.size (C.costs allowed.size method) space.old space.new result.column (C.Sum.value result.sum) }
{
    let width = allowed.size.width;
    let side = width + 1;
    let front = C::front_bytes(allowed);
    C::cost_row(
        &space[..front],
        allowed,
        method,
        0,
        &mut energies[..width],
        &mut above[1..side],
    );
    down::<C>(space, allowed, method, above, energies, steps, next);
    let sums = &above[1..side];
    let column = first_least(sums);
    let sum = sums[column];
    Bottom { column, sum }
}
