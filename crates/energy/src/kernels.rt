// The energies of one row of pixels, given its bytes and those of the row that stands for the one below it. N is the number of
// channels, a constant to the compiler; that a sum over them fits is asked of N where it is needed, as a constant has no type that
// could say it. The two rows are two arguments: a struct of both would be opened in each function, which reads them apart.
ghost use Rattle.std.specs.Prelude.{◌≡◌, ◌++◌, ◌+◌, ◌*◌, ◌≤◌, ◌<◌, length, sum, drop};
ghost use Rattle.grids.specs.Table.{table};
ghost use Rattle.energy.specs.Energy.{difference as Energy·difference};
ghost use Rattle.pictures.specs.Limits.{most_side};
ghost use Rattle.pictures.specs.Pictures.{channels_of};
ghost use Rattle.energy.specs.Inner.{LinesNeeded, BlockOf, DistancesNeeded, sample_apart, two_sums, two_distances, energy_between, between};
ghost use Rattle.grids.specs.Rows.{row_at};

use pictures::Kind;

// The pixels of a block, in which rows are worked out. The lengths of a block are constants to the compiler, which unrolls its loops
// into vectors, at these sizes best, and a row clears no more than a block of samples.
pub(crate) const GREY_BLOCK: usize = 64;

pub(crate) const RGB_BLOCK: usize = 16;

// The samples of a block of rgb pixels. A grey pixel is one sample.
pub(crate) const RGB_SAMPLES: usize = 3 * RGB_BLOCK;

// The energies of a row of pixels of this kind, put into the first `width` places of out. Column `beside` stands for the one to
// the right of the last.
pub(crate) fn line_energies(
    kind: Kind,
    it: &[u8],
    lower: &[u8],
    width: usize,
    beside: usize,
    out: &mut [u32],
)
    requires { LinesNeeded (channels_of kind) it.now lower.now width beside out.old }
    ensures { out.new ≡ table (between (channels_of kind) it.now lower.now width beside) width ++ drop width out.old }
{
    match kind {
        Kind::Grey => row::<1, GREY_BLOCK, GREY_BLOCK>(it, lower, width, beside, out),
        Kind::Rgb => row::<3, RGB_BLOCK, RGB_SAMPLES>(it, lower, width, beside, out),
    }
}

fn row<const N: usize, const PIXELS: usize, const SAMPLES: usize>(
    it: &[u8],
    lower: &[u8],
    width: usize,
    beside: usize,
    out: &mut [u32],
)
    requires block { BlockOf N PIXELS SAMPLES }
    requires lines { LinesNeeded N it.now lower.now width beside out.old }
    ensures { out.new ≡ table (between N it.now lower.now width beside) width ++ drop width out.old }
{
    let last = width - 1;
    inner_energies::<N, PIXELS, SAMPLES>(it, lower, &mut out[..last]);
    out[last] = energy_at::<N>(it, lower, last, beside);
}

// The energies of the pixels before the last.
fn inner_energies<const N: usize, const PIXELS: usize, const SAMPLES: usize>(
    it: &[u8],
    lower: &[u8],
    out: &mut [u32],
)
    requires block { BlockOf N PIXELS SAMPLES }
    requires narrow { length out.old ≤ most_side }
    requires rows { (length out.old * N + N ≤ length it.now) × (length out.old * N ≤ length lower.now) }
    ensures { out.new ≡ table (λ c. energy_between N it.now lower.now c (c + 1)) (length out.old) }
{
    distances::<N, PIXELS, SAMPLES>(&it[N..], it, lower, it, out);
}

// How far the pixels of one row are from those of another, and those of a third from those of a fourth, added.
pub(crate) fn distances<const N: usize, const PIXELS: usize, const SAMPLES: usize>(
    a: &[u8],
    b: &[u8],
    c: &[u8],
    d: &[u8],
    out: &mut [u32],
)
    requires block { BlockOf N PIXELS SAMPLES }
    requires narrow { length out.old ≤ most_side }
    requires rows { DistancesNeeded a.now b.now c.now d.now (length out.old * N) }
    ensures { out.new ≡ table (two_distances N a.now b.now c.now d.now) (length out.old) }
{
    if out.len() < PIXELS {
        short::<N>(a, b, c, d, out);
    } else {
        blocks::<N, PIXELS, SAMPLES>(a, b, c, d, out);
    }
}

// The same of a row of one block at least. The last block begins where it ends with the row, so that it may work out again what
// the block before it did.
fn blocks<const N: usize, const PIXELS: usize, const SAMPLES: usize>(
    a: &[u8],
    b: &[u8],
    c: &[u8],
    d: &[u8],
    out: &mut [u32],
)
    requires block { BlockOf N PIXELS SAMPLES }
    requires narrow { (PIXELS ≤ length out.old) × (length out.old ≤ most_side) }
    requires rows { DistancesNeeded a.now b.now c.now d.now (length out.old * N) }
    ensures { out.new ≡ table (two_distances N a.now b.now c.now d.now) (length out.old) }
{
    let last = out.len() - PIXELS;
    let mut done = 0;
    while done < out.len() {
        let at = done.min(last);
        let end = at + PIXELS;
        let from = at * N;
        let to = from + SAMPLES;
        block::<N, PIXELS, SAMPLES>(
            &a[from..to],
            &b[from..to],
            &c[from..to],
            &d[from..to],
            &mut out[at..end],
        );
        done = end;
    }
}

// The same of one block. Samples are worked out before pixels, so that many are at once.
fn block<const N: usize, const PIXELS: usize, const SAMPLES: usize>(
    a: &[u8],
    b: &[u8],
    c: &[u8],
    d: &[u8],
    out: &mut [u32],
)
    requires block { BlockOf N PIXELS SAMPLES }
    requires one { length out.old ≡ PIXELS }
    requires rows { DistancesNeeded a.now b.now c.now d.now SAMPLES }
    ensures { out.new ≡ table (two_distances N a.now b.now c.now d.now) PIXELS }
{
    let mut first = [0u8; SAMPLES];
    let mut second = [0u8; SAMPLES];
    let mut sums = [0u16; PIXELS];
    samples_apart(a, b, &mut first);
    samples_apart(c, d, &mut second);
    pixel_sums::<N>(&first, &second, &mut sums);
    widen(&sums, out);
}

// The same of a row of less than a block, pixel by pixel: room for its samples would be cleared again for each row, and takes longer
// than the row itself.
fn short<const N: usize>(a: &[u8], b: &[u8], c: &[u8], d: &[u8], out: &mut [u32])
    requires few { N ≤ 3 }
    requires narrow { length out.old ≤ most_side }
    requires rows { DistancesNeeded a.now b.now c.now d.now (length out.old * N) }
    ensures { out.new ≡ table (two_distances N a.now b.now c.now d.now) (length out.old) }
{
    for (k, distance) in out.iter_mut().enumerate() {
        let first = difference(pixel_at::<N>(a, k), pixel_at::<N>(b, k));
        let second = difference(pixel_at::<N>(c, k), pixel_at::<N>(d, k));
        *distance = first + second;
    }
}

// How far the samples of one row are from those of another; by index, since nothing is promised of what is written through a zip.
pub(crate) fn samples_apart(a: &[u8], b: &[u8], out: &mut [u8])
    requires { (length out.old ≤ length a.now) × (length out.old ≤ length b.now) }
    ensures { out.new ≡ table (sample_apart a.now b.now) (length out.old) }
{
    for (k, distance) in out.iter_mut().enumerate() {
        *distance = a[k].abs_diff(b[k]);
    }
}

// What pixels have, from what their samples have in two rows. In 16 bits, of which a register holds twice as many as of 32. By index
// for the same reason; `as_chunks` would ask that N isn't 0, too.
pub(crate) fn pixel_sums<const N: usize>(first: &[u8], second: &[u8], out: &mut [u16])
    requires few { N ≤ 3 }
    requires narrow { length out.old ≤ most_side }
    requires rows { (length out.old * N ≤ length first.now) × (length out.old * N ≤ length second.now) }
    ensures { out.new ≡ table (two_sums N first.now second.now) (length out.old) }
{
    for (c, sum) in out.iter_mut().enumerate() {
        let at = c * N;
        let end = at + N;
        *sum = total(&first[at..end]) + total(&second[at..end]);
    }
}

// The sum over a pixel's samples.
fn total(samples: &[u8]) -> u16
    requires { length samples.now ≤ 3 }
    ensures { (result ≡ sum samples.now) × (result ≤ 765) }
{
    samples.iter().map(|x| *x as u16).sum()
}

// The same numbers in 32 bits.
pub(crate) fn widen(from: &[u16], out: &mut [u32])
    requires { length out.old ≡ length from.now }
    ensures { out.new ≡ from.now }
{
    for (c, number) in out.iter_mut().enumerate() {
        *number = from[c] as u32;
    }
}

// The energy of the pixel in column c: how far the pixel of its row in column `beside` is from it, and how far the lower one is.
fn energy_at<const N: usize>(it: &[u8], lower: &[u8], c: usize, beside: usize) -> u32
    requires few { N ≤ 3 }
    requires inside { (c * N + N ≤ length it.now) × (c * N + N ≤ length lower.now) × (beside * N + N ≤ length it.now) }
    ensures { result ≡ energy_between N it.now lower.now c beside }
{
    let pixel = pixel_at::<N>(it, c);
    difference(pixel_at::<N>(it, beside), pixel) + difference(pixel_at::<N>(lower, c), pixel)
}

// The samples of the pixel in column c of a row.
fn pixel_at<const N: usize>(row: &[u8], c: usize) -> &[u8]
    requires { c * N + N ≤ length row.now }
    ensures { result.now ≡ row_at N c row.now }
{
    let at = c * N;
    &row[at..at + N]
}

// How far two pixels are apart, the channels added.
pub(crate) fn difference(a: &[u8], b: &[u8]) -> u32
    requires { length a.now ≤ 3 }
    ensures { (result ≡ Energy·difference a.now b.now) × (result ≤ 765) }
{
    a.iter().zip(b).map(|(x, y)| x.abs_diff(*y) as u32).sum()
}
