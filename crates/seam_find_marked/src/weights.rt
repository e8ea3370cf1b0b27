// The weights of a picture with marks: what coming to each pixel costs and its mark in one number.
ghost use Rattle.std.specs.Prelude.{◌≡◌, ◌<◌, true, map, length};
ghost use Rattle.seam_sums.specs.Fences.{weights_fence};
ghost use Rattle.grids.specs.Table.{table};
ghost use Rattle.seam_sums.specs.Weights.{FoundByGiven};
ghost use Rattle.seam_find.specs.Costing.{thirds};
ghost use Rattle.seam_find_marked.specs.Inner.{most_weight, marked_bytes, marks_at, weight_in, weighed_rows, weights_of, WeighNeeded, WeighAllNeeded};

use energy::Method;
use pictures::{AllowedSize, Refusal, Size};
use seam_find::Costing;
use seam_sums::{Weight, found_by, pixel_weight};

// The weights of the pixels of a picture with its marks after it.
pub struct Weights;

impl Costing for Weights {
    type Sum = Weight;

    ghost marked = { true };

    ghost front = { marked_bytes };

    ghost costs = { weights_of };

    ghost dearest = { most_weight };

    ghost fence = { weights_fence };

    ghost means = { FoundByGiven };

    fn judge(size: Size, space: usize, seam: usize) -> Result<AllowedSize, Refusal> {
        seam_bounds::judge_find_marked_in(size, space, seam)
    }

    fn front_bytes(allowed: AllowedSize) -> usize {
        allowed.picture_bytes() + allowed.pixels()
    }

    fn cost_row(
        bytes: &[u8],
        allowed: AllowedSize,
        method: Method,
        i: usize,
        energies: &mut [u32],
        cost: &mut [Weight],
    ) {
        let width = allowed.size.width;
        let picture = allowed.picture_bytes();
        let front = Self::front_bytes(allowed);
        // Where nothing is promised, nothing is done.
        if allowed.size.height <= i || bytes.len() != front {
            return;
        }
        if energies.len() != width || cost.len() != width {
            return;
        }
        // not refused: the picture is of its size, and there is room
        energy::energies(&bytes[..picture], allowed.size, method, i, energies).unwrap();
        weigh(energies, row_marks(bytes, allowed, i), cost);
    }

    fn step_rows(
        bytes: &[u8],
        allowed: AllowedSize,
        method: Method,
        i: usize,
        energies: &mut [u32],
        steps: &mut [Weight],
    ) {
        let width = allowed.size.width;
        let picture = allowed.picture_bytes();
        let front = Self::front_bytes(allowed);
        if allowed.size.height <= i || bytes.len() != front {
            return;
        }
        if energies.len() != 3 * width || steps.len() != 3 * width {
            return;
        }
        let (left, rest) = energies.split_at_mut(width);
        let (up, right) = rest.split_at_mut(width);
        energy::step_costs(&bytes[..picture], allowed.size, method, i, left, up, right).unwrap();
        weigh_all(left, up, right, row_marks(bytes, allowed, i), steps);
    }

    fn found(least: Weight) -> Result<u64, Refusal> {
        found_by(least)
    }
}

// The marks of row i, which stand after the picture.
fn row_marks(bytes: &[u8], allowed: AllowedSize, i: usize) -> &[u8]
    requires { (i < allowed.size.height) × (length bytes.now ≡ marked_bytes allowed.size) }
    ensures is { result.now ≡ marks_at allowed.size bytes.now i }
    ensures long { length result.now ≡ allowed.size.width }
{
    let width = allowed.size.width;
    let a = allowed.picture_bytes() + i * width;
    let e = a + width;
    &bytes[a..e]
}

// The weights of a row, from a row of its costs and its marks. By index, since nothing is promised of what is written through a zip.
fn weigh(costs: &[u32], marks: &[u8], cost: &mut [Weight])
    requires { WeighNeeded costs.now marks.now (length cost.old) }
    ensures { map (λ w. w.0) cost.new ≡ table (weight_in costs.now marks.now) (length cost.old) }
{
    for (c, cost) in cost.iter_mut().enumerate() {
        *cost = pixel_weight(costs[c], marks[c]);
    }
}

// The weights of a row's steps, from their costs, one row after the other.
fn weigh_all(left: &[u32], up: &[u32], right: &[u32], marks: &[u8], steps: &mut [Weight])
    requires { WeighAllNeeded left.now up.now right.now marks.now (length steps.old) }
    ensures { thirds (length marks.now) (map (λ w. w.0) steps.new) ≡ weighed_rows left.now up.now right.now marks.now }
{
    let width = marks.len();
    let (from_left, rest) = steps.split_at_mut(width);
    let (from_above, from_right) = rest.split_at_mut(width);
    weigh(left, marks, from_left);
    weigh(up, marks, from_above);
    weigh(right, marks, from_right);
}
