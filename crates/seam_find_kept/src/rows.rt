// Rows of sums, in numbers of any width.
ghost use Rattle.std.specs.Prelude.{◌≡◌, ◌+◌, ◌-◌, ◌≤◌, length, take, drop};
ghost use Rattle.grids.specs.Table.{table};
ghost use Rattle.pictures.specs.Numbers.{numbers_in};
ghost use Rattle.seam_theory.specs.Sums.{alike_rows, least_to};
ghost use Rattle.seam_find_kept.specs.Inner.Rows.{FirstNeeded, ByOneNeeded, ByStepsNeeded, step_rows};
ghost use Rattle.seam_theory.proofs.Kept.{kept_sum};

use crate::sums::Sum;
use crate::words::pair_at;

// The costs of a row: in row 0 they are the sums.
pub(crate) fn first_row<S: Sum>(cost: &[u8], width: usize, next: &mut [u8])
    requires { FirstNeeded (length cost.now) width (length (S.held next.old)) }
    ensures { S.held next.new ≡ numbers_in cost.now }
{
    for c in 0..width {
        S::from_cost(pair_at(cost, c)).put(next, c);
    }
}

// The sums of a row, from the fenced sums of the row above it and the row's costs. A pixel costs the same wherever a path comes from. No
// edge, no branch and three places of one row, so that many columns are worked out at once. Never inlined: in the loop over the rows LLVM
// would ask whether any row that is read overlaps any that is written, and as rows that are written are read next, work out one column at
// a time.
#[inline(never)]
pub(crate) fn row_by_one<S: Sum>(above: &[u8], cost: &[u8], width: usize, next: &mut [u8])
    requires { ByOneNeeded (S.held above.now) (length cost.now) width (length (S.held next.old)) }
    ensures { S.held next.new ≡ table (kept_sum S.most (S.held above.now) (alike_rows (numbers_in cost.now))) width }
{
    for c in 0..width {
        let least = S::at(above, c).lesser(S::at(above, c + 1).lesser(S::at(above, c + 2)));
        least.plus(pair_at(cost, c)).put(next, c);
    }
}

// The same where what a pixel costs depends on where a path comes from. Never inlined either.
#[inline(never)]
pub(crate) fn row_by_steps<S: Sum>(
    above: &[u8],
    from_up: &[u8],
    from_left: &[u8],
    from_right: &[u8],
    width: usize,
    next: &mut [u8],
)
    requires { ByStepsNeeded (S.held above.now)
        (length from_up.now) (length from_left.now) (length from_right.now) width (length (S.held next.old)) }
    ensures { S.held next.new ≡ table
        (kept_sum S.most (S.held above.now) (step_rows from_up.now from_left.now from_right.now)) width }
{
    for c in 0..width {
        let left = S::at(above, c).plus(pair_at(from_left, c));
        let up = S::at(above, c + 1).plus(pair_at(from_up, c));
        let right = S::at(above, c + 2).plus(pair_at(from_right, c));
        left.lesser(up.lesser(right)).put(next, c);
    }
}

// The first column of the least of a row's sums, which stand between fences.
pub(crate) fn least_column<S: Sum>(row: &[u8], width: usize) -> usize
    requires { width + 2 ≤ length (S.held row.now) }
    ensures { result ≡ least_to (take width (drop 1 (S.held row.now))) (width - 1) }
{
    let mut best = 0;
    for c in 0..width {
        if S::at(row, c + 1).is_less(S::at(row, best + 1)) {
            best = c;
        }
    }
    best
}
