// Rows of sums.
ghost use Rattle.std.specs.Prelude.{map, length};
ghost use Rattle.seam_find.specs.Costing.{thirds};
ghost use Rattle.seam_find.specs.Inner.Sums.{NextRowNeeded, NextRowGiven, NextStepsNeeded, NextStepsGiven};

use seam_sums::{Number, way};

// The sums of a row and where each comes from, from the row of sums above it and the row's costs. A pixel costs the same
// wherever a path comes from, so the sums above decide.
pub(crate) fn next_row<N: Number>(above: &[N], cost: &[N], next: &mut [N], ways: &mut [u8])
    requires { NextRowNeeded N.fence (map N.value above.now) (map N.value cost.now) (length next.old) (length ways.old) }
    ensures { NextRowGiven N.most (map N.value above.now) (map N.value cost.now) (length next.old) (map N.value next.new) ways.new }
{
    // By index, since nothing is promised of what is written through a zip. No edge, no branch and three places of one row, so that
    // many columns are worked out at once.
    for c in 0..next.len() {
        let left = above[c];
        let middle = above[c + 1];
        let right = above[c + 2];
        next[c] = left.lesser(middle.lesser(right)).plus(cost[c]).capped();
        ways[c] = way(left, middle, right);
    }
}

// The same where what a pixel costs depends on where a path comes from: `steps` holds three rows of costs, from the left, from straight above
// and from the right.
pub(crate) fn next_row_by_steps<N: Number>(
    above: &[N],
    steps: &[N],
    next: &mut [N],
    ways: &mut [u8],
)
    requires { NextStepsNeeded N.fence (map N.value above.now) (thirds (length next.old) (map N.value steps.now)) (length steps.now) (length next.old) (length ways.old) }
    ensures { NextStepsGiven N.most (map N.value above.now) (thirds (length next.old) (map N.value steps.now)) (length next.old) (map N.value next.new) ways.new }
{
    let width = next.len();
    let (from_left, rest) = steps.split_at(width);
    let (from_above, from_right) = rest.split_at(width);
    for c in 0..next.len() {
        let left = above[c].plus(from_left[c]);
        let middle = above[c + 1].plus(from_above[c]);
        let right = above[c + 2].plus(from_right[c]);
        next[c] = left.lesser(middle.lesser(right)).capped();
        ways[c] = way(left, middle, right);
    }
}
