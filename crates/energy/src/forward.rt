// What taking out the pixels of a row adds: how far the pixels are apart that then meet. A row is read with the first and the last pixel
// once more at its sides, so that a neighbour past the side edge is the pixel itself.
ghost use Rattle.std.specs.Prelude.{◌≡◌, ◌+◌, ◌*◌, ◌≤◌, ◌<◌, length};
ghost use Rattle.grids.specs.Table.{table};
ghost use Rattle.pictures.specs.Limits.{most_side, most_row};
ghost use Rattle.pictures.specs.Pictures.{channels_of};
ghost use Rattle.energy.specs.Inner.{RowOf, StepsNeeded, StepRowsNeeded, BlockOf, padded, sample_distance, two_distances, across_of, left_of_row, right_of_row};

use crate::kernels::{
    GREY_BLOCK, RGB_BLOCK, RGB_SAMPLES, distances, pixel_sums, samples_apart, widen,
};
use pictures::{Kind, LARGEST_SIDE};

// The most samples of a row with a pixel more at either side, in grey and in rgb.
const MOST_GREY: usize = LARGEST_SIDE + 2;

const MOST_RGB: usize = 3 * (LARGEST_SIDE + 2);

// Coming to the pixels of a row from straight above: their neighbours in the row meet.
pub(crate) fn across(kind: Kind, it: &[u8], out: &mut [u32])
    requires { RowOf (channels_of kind) it.now (length out.old) }
    ensures { out.new ≡ table (across_of (channels_of kind) it.now) (length out.old) }
{
    match kind {
        Kind::Grey => across_row::<1, GREY_BLOCK, GREY_BLOCK, MOST_GREY>(it, out),
        Kind::Rgb => across_row::<3, RGB_BLOCK, RGB_SAMPLES, MOST_RGB>(it, out),
    }
}

// All three costs of a row that has one above it. Where a path comes from a side, the pixel above and the neighbour on that side meet
// too.
pub(crate) fn steps(
    kind: Kind,
    it: &[u8],
    above: &[u8],
    left: &mut [u32],
    up: &mut [u32],
    right: &mut [u32],
)
    requires { StepsNeeded (channels_of kind) it.now above.now (length left.old) (length up.old) (length right.old) }
    ensures left { left.new ≡ table (left_of_row (channels_of kind) it.now above.now) (length left.old) }
    ensures up { up.new ≡ table (across_of (channels_of kind) it.now) (length up.old) }
    ensures right { right.new ≡ table (right_of_row (channels_of kind) it.now above.now) (length right.old) }
{
    match kind {
        Kind::Grey => grey_steps(it, above, left, up, right),
        Kind::Rgb => rgb_steps(it, above, left, up, right),
    }
}

// ROOM samples are as many as the widest row has with a pixel more at either side.
fn across_row<const N: usize, const PIXELS: usize, const SAMPLES: usize, const ROOM: usize>(
    it: &[u8],
    out: &mut [u32],
)
    requires block { BlockOf N PIXELS SAMPLES }
    requires room { (0 < N) × (length it.now + 2 * N ≤ ROOM) × (ROOM ≤ most_row) }
    requires row { RowOf N it.now (length out.old) }
    ensures { out.new ≡ table (across_of N it.now) (length out.old) }
{
    let mut wide = [0u8; ROOM];
    let end = it.len() + 2 * N;
    pad::<N>(it, &mut wide[..end]);
    let before = &wide[..end];
    let after = &before[2 * N..];
    // the second distance is that of a row from itself, 0
    distances::<N, PIXELS, SAMPLES>(after, before, before, before, out);
}

// In grey a sample is a pixel.
fn grey_steps(it: &[u8], above: &[u8], left: &mut [u32], up: &mut [u32], right: &mut [u32])
    requires { StepsNeeded 1 it.now above.now (length left.old) (length up.old) (length right.old) }
    ensures left { left.new ≡ table (left_of_row 1 it.now above.now) (length left.old) }
    ensures up { up.new ≡ table (across_of 1 it.now) (length up.old) }
    ensures right { right.new ≡ table (right_of_row 1 it.now above.now) (length right.old) }
{
    let mut wide = [0u8; MOST_GREY];
    let end = it.len() + 2;
    pad::<1>(it, &mut wide[..end]);
    let before = &wide[..end];
    pixel_steps(before, &before[2..], above, left, up, right);
}

// In rgb by blocks of pixels, in which samples are worked out first.
fn rgb_steps(it: &[u8], above: &[u8], left: &mut [u32], up: &mut [u32], right: &mut [u32])
    requires { StepsNeeded 3 it.now above.now (length left.old) (length up.old) (length right.old) }
    ensures left { left.new ≡ table (left_of_row 3 it.now above.now) (length left.old) }
    ensures up { up.new ≡ table (across_of 3 it.now) (length up.old) }
    ensures right { right.new ≡ table (right_of_row 3 it.now above.now) (length right.old) }
{
    let mut wide = [0u8; MOST_RGB];
    let end = it.len() + 6;
    pad::<3>(it, &mut wide[..end]);
    let before = &wide[..end];
    let after = &before[6..];
    if left.len() < RGB_BLOCK {
        short_steps::<3, RGB_BLOCK, RGB_SAMPLES>(before, after, above, left, up, right);
    } else {
        step_blocks::<3, RGB_BLOCK, RGB_SAMPLES>(before, after, above, left, up, right);
    }
}

// The three rows of costs one after the other: where a row is less than a block.
fn short_steps<const N: usize, const PIXELS: usize, const SAMPLES: usize>(
    before: &[u8],
    after: &[u8],
    above: &[u8],
    left: &mut [u32],
    up: &mut [u32],
    right: &mut [u32],
)
    requires block { BlockOf N PIXELS SAMPLES }
    requires narrow { length left.old ≤ most_side }
    requires rows { StepRowsNeeded N before.now after.now above.now (length left.old) (length up.old) (length right.old) }
    ensures left { left.new ≡ table (two_distances N after.now before.now above.now before.now) (length left.old) }
    ensures up { up.new ≡ table (two_distances N after.now before.now before.now before.now) (length left.old) }
    ensures right { right.new ≡ table (two_distances N after.now before.now above.now after.now) (length left.old) }
{
    distances::<N, PIXELS, SAMPLES>(after, before, above, before, left);
    distances::<N, PIXELS, SAMPLES>(after, before, before, before, up);
    distances::<N, PIXELS, SAMPLES>(after, before, above, after, right);
}

// The costs of a row of one block at least. The last block begins where it ends with the row.
fn step_blocks<const N: usize, const PIXELS: usize, const SAMPLES: usize>(
    before: &[u8],
    after: &[u8],
    above: &[u8],
    left: &mut [u32],
    up: &mut [u32],
    right: &mut [u32],
)
    requires block { BlockOf N PIXELS SAMPLES }
    requires narrow { (PIXELS ≤ length left.old) × (length left.old ≤ most_side) }
    requires rows { StepRowsNeeded N before.now after.now above.now (length left.old) (length up.old) (length right.old) }
    ensures left { left.new ≡ table (two_distances N after.now before.now above.now before.now) (length left.old) }
    ensures up { up.new ≡ table (two_distances N after.now before.now before.now before.now) (length left.old) }
    ensures right { right.new ≡ table (two_distances N after.now before.now above.now after.now) (length left.old) }
{
    let last = left.len() - PIXELS;
    let mut done = 0;
    while done < left.len() {
        let at = done.min(last);
        let end = at + PIXELS;
        let from = at * N;
        let to = from + SAMPLES;
        step_block::<N, PIXELS, SAMPLES>(
            &before[from..to],
            &after[from..to],
            &above[from..to],
            &mut left[at..end],
            &mut up[at..end],
            &mut right[at..end],
        );
        done = end;
    }
}

// The costs of one block. How far the samples beside a sample are apart counts in all three; the second distance in those from
// straight above is that of a row from itself, 0.
fn step_block<const N: usize, const PIXELS: usize, const SAMPLES: usize>(
    before: &[u8],
    after: &[u8],
    above: &[u8],
    left: &mut [u32],
    up: &mut [u32],
    right: &mut [u32],
)
    requires block { BlockOf N PIXELS SAMPLES }
    requires one { length left.old ≡ PIXELS }
    requires rows { StepRowsNeeded N before.now after.now above.now (length left.old) (length up.old) (length right.old) }
    ensures left { left.new ≡ table (two_distances N after.now before.now above.now before.now) PIXELS }
    ensures up { up.new ≡ table (two_distances N after.now before.now before.now before.now) PIXELS }
    ensures right { right.new ≡ table (two_distances N after.now before.now above.now after.now) PIXELS }
{
    let mut across = [0u8; SAMPLES];
    let mut from_left = [0u8; SAMPLES];
    let mut from_above = [0u8; SAMPLES];
    let mut from_right = [0u8; SAMPLES];
    let mut sums = [0u16; PIXELS];
    samples_apart(after, before, &mut across);
    samples_apart(above, before, &mut from_left);
    // no distance but that across: zeros, so that all three are two distances of a sample, added by one function
    samples_apart(before, before, &mut from_above);
    samples_apart(above, after, &mut from_right);
    pixel_sums::<N>(&across, &from_left, &mut sums);
    widen(&sums, left);
    pixel_sums::<N>(&across, &from_above, &mut sums);
    widen(&sums, up);
    pixel_sums::<N>(&across, &from_right, &mut sums);
    widen(&sums, right);
}

// The costs of coming to each sample of a row, from the samples beside it and above it, where samples are pixels. All three in one
// loop: how far those beside it are apart counts in each. By index, since nothing is promised of what is written through a zip.
fn pixel_steps(
    before: &[u8],
    after: &[u8],
    above: &[u8],
    left: &mut [u32],
    up: &mut [u32],
    right: &mut [u32],
)
    requires { StepRowsNeeded 1 before.now after.now above.now (length left.old) (length up.old) (length right.old) }
    ensures left { left.new ≡ table (sample_distance after.now before.now above.now before.now) (length left.old) }
    ensures up { up.new ≡ table (sample_distance after.now before.now before.now before.now) (length left.old) }
    ensures right { right.new ≡ table (sample_distance after.now before.now above.now after.now) (length left.old) }
{
    for k in 0..left.len() {
        let across = after[k].abs_diff(before[k]) as u32;
        left[k] = across + above[k].abs_diff(before[k]) as u32;
        up[k] = across;
        right[k] = across + above[k].abs_diff(after[k]) as u32;
    }
}

// A row with its first and its last pixel once more at its sides.
fn pad<const N: usize>(it: &[u8], wide: &mut [u8])
    requires some { N ≤ length it.now }
    requires long { length wide.old ≡ length it.now + 2 * N }
    ensures { wide.new ≡ padded N it.now }
{
    let length = it.len();
    let end = N + length;
    wide[..N].copy_from_slice(&it[..N]);
    wide[N..end].copy_from_slice(it);
    wide[end..].copy_from_slice(&it[length - N..]);
}
