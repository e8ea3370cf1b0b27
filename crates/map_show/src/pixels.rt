// A pixel put into a row, as it is or as the mean of two. One function for any number of channels, which is a constant to the
// compiler: the loop over them is unrolled.
ghost use Rattle.std.specs.Prelude.{◌≡◌, ◌+◌, ◌*◌, ◌≤◌, length};
ghost use Rattle.std.proofs.lemmas.List.Edits.{sets};
ghost use Rattle.grids.specs.Rows.{row_at};
ghost use Rattle.map_theory.specs.Widths.{average};
ghost use Rattle.map_show.specs.Inner.Pixels.{PixelNeeded, MeanNeeded, MeansNeeded};

use map_rules::mean;

// The samples of pixel c of a row. The energies have one of their own: it asks that the row has the pixel, and no public function
// asks anything.
fn pixel_at<const N: usize>(samples: &[u8], c: usize) -> &[u8]
    requires { c * N + N ≤ length samples.now }
    ensures { result.now ≡ row_at N c samples.now }
{
    let at = c * N;
    &samples[at..at + N]
}

// The samples of pixel c, at the place.
pub(crate) fn put_pixel<const N: usize>(samples: &[u8], c: usize, out: &mut [u8], at: usize)
    requires { PixelNeeded N samples.now c out.old at }
    ensures { out.new ≡ sets out.old at (row_at N c samples.now) }
{
    copy_pixel(pixel_at::<N>(samples, c), &mut out[at..at + N]);
}

// The samples of a pixel, one by one: `copy_from_slice` compiles to a test of whether the two overlap, measured 1.4 times slower.
fn copy_pixel(pixel: &[u8], out: &mut [u8])
    requires { length pixel.now ≡ length out.old }
    ensures { out.new ≡ pixel.now }
{
    for (i, sample) in out.iter_mut().enumerate() {
        *sample = pixel[i];
    }
}

// The mean of pixels c and d, at the place.
pub(crate) fn put_mean<const N: usize>(
    samples: &[u8],
    c: usize,
    d: usize,
    out: &mut [u8],
    at: usize,
)
    requires { MeanNeeded N samples.now c d out.old at }
    ensures { out.new ≡ sets out.old at (average (row_at N c samples.now) (row_at N d samples.now)) }
{
    put_means(
        pixel_at::<N>(samples, c),
        pixel_at::<N>(samples, d),
        &mut out[at..at + N],
    );
}

// The mean of each two samples of two pixels. By index: of what a zip with `iter_mut` writes nothing is known afterwards.
fn put_means(a: &[u8], b: &[u8], out: &mut [u8])
    requires { MeansNeeded a.now b.now out.old }
    ensures { out.new ≡ average a.now b.now }
{
    for (i, sample) in out.iter_mut().enumerate() {
        *sample = mean(a[i], b[i]);
    }
}
