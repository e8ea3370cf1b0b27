// A row of pixels kept or grown by the numbers of its row of the map.
ghost use Rattle.std.specs.Prelude.{◌≡◌, ◌++◌, length, drop};
ghost use Rattle.std.proofs.lemmas.List.Edits.{sets};
ghost use Rattle.pictures.specs.Pictures.{pixel_bytes};
ghost use Rattle.map_theory.specs.Judged.{doubled_in};
ghost use Rattle.map_show.specs.Showing.{pixels_at};
ghost use Rattle.map_show.specs.Inner.Rows.{shown, kept_pixels, grown, last_pixels, RowNeeded, LastNeeded};

use crate::pixels::{put_mean, put_pixel};
use map_rules::{is_doubled, stays};
use pictures::Kind;

// How many of the numbers are 1 to u. A loop, since `filter` and `count` compile to a branch for each number: measured, showing a
// row took half as long again.
fn doubled_in(u: usize, numbers: &[u16]) -> usize
    ensures { result ≡ doubled_in u numbers.now }
{
    let mut count = 0;
    for number in numbers {
        if is_doubled(u, *number as usize) {
            count += 1;
        }
    }
    count
}

// How many pixels a row with these numbers shows at the wanted width.
pub fn pixels_at(numbers: &[u16], wanted: usize) -> usize
    ensures { result ≡ pixels_at numbers.now wanted }
{
    let width = numbers.len();
    if wanted <= width {
        width - doubled_in(width - wanted, numbers)
    } else {
        width + doubled_in(wanted - width, numbers)
    }
}

// What is shown of a row of this kind at the wanted width, put into the front of out. Samples and numbers are lent beside each other,
// as they come: a struct of both would hold one clause, that they are as many, while the room depends on what each function shows.
pub(crate) fn show(
    kind: Kind,
    wrap: bool,
    samples: &[u8],
    numbers: &[u16],
    wanted: usize,
    out: &mut [u8],
)
    requires { RowNeeded (pixel_bytes kind) samples.now numbers.now (shown (pixel_bytes kind) wrap samples.now numbers.now wanted) out.old }
    ensures { out.new ≡ shown (pixel_bytes kind) wrap samples.now numbers.now wanted ++ drop (length (shown (pixel_bytes kind) wrap samples.now numbers.now wanted)) out.old }
{
    match kind {
        Kind::Grey => show_row::<1>(wrap, samples, numbers, wanted, out),
        Kind::Rgb => show_row::<3>(wrap, samples, numbers, wanted, out),
    }
}

// The same for pixels of N bytes: kept or grown, by the width that the caller wants.
fn show_row<const N: usize>(
    wrap: bool,
    samples: &[u8],
    numbers: &[u16],
    wanted: usize,
    out: &mut [u8],
)
    requires { RowNeeded N samples.now numbers.now (shown N wrap samples.now numbers.now wanted) out.old }
    ensures { out.new ≡ shown N wrap samples.now numbers.now wanted ++ drop (length (shown N wrap samples.now numbers.now wanted)) out.old }
{
    let width = numbers.len();
    if wanted <= width {
        keep_row::<N>(samples, numbers, width - wanted, out);
    } else {
        grow_row::<N>(wrap, samples, numbers, wanted - width, out);
    }
}

// The pixels whose number is 0 or greater than t, put into the front of out. The place is counted: a pixel's part cut off the front
// of out each time would be out's again only at the end, and no line less.
fn keep_row<const N: usize>(samples: &[u8], numbers: &[u16], t: usize, out: &mut [u8])
    requires { RowNeeded N samples.now numbers.now (kept_pixels N samples.now numbers.now t) out.old }
    ensures { out.new ≡ kept_pixels N samples.now numbers.now t ++ drop (length (kept_pixels N samples.now numbers.now t)) out.old }
{
    let mut at = 0;
    for (c, number) in numbers.iter().enumerate() {
        if stays(t, *number as usize) {
            put_pixel::<N>(samples, c, out, at);
            at += N;
        }
    }
}

// All pixels, with a new one for each whose number is 1 to u, put into the front of out.
fn grow_row<const N: usize>(wrap: bool, samples: &[u8], numbers: &[u16], u: usize, out: &mut [u8])
    requires { RowNeeded N samples.now numbers.now (grown N wrap samples.now numbers.now u) out.old }
    ensures { out.new ≡ grown N wrap samples.now numbers.now u ++ drop (length (grown N wrap samples.now numbers.now u)) out.old }
{
    let Some((last, front)) = numbers.split_last() else {
        return;
    };
    let mut at = 0;
    for (c, number) in front.iter().enumerate() {
        put_pixel::<N>(samples, c, out, at);
        at += N;
        if is_doubled(u, *number as usize) {
            put_mean::<N>(samples, c, c + 1, out, at);
            at += N;
        }
    }
    put_last::<N>(
        wrap,
        samples,
        front.len(),
        is_doubled(u, *last as usize),
        out,
        at,
    );
}

// The pixel of the last column and its new pixel, where it has one: joined to the first column, to the right of it and the mean with
// pixel 0, else to the left of it and the mean with its left neighbour. Whether it has one is told: the other pixels ask it of their
// numbers in the loop, and this decides nothing.
fn put_last<const N: usize>(
    wrap: bool,
    samples: &[u8],
    last: usize,
    new: bool,
    out: &mut [u8],
    at: usize,
)
    requires { LastNeeded N wrap samples.now last new out.old at }
    ensures { out.new ≡ sets out.old at (last_pixels N wrap samples.now last new) }
{
    if new {
        let next = at + N;
        if wrap {
            put_pixel::<N>(samples, last, out, at);
            put_mean::<N>(samples, last, 0, out, next);
        } else {
            put_mean::<N>(samples, last, last.saturating_sub(1), out, at);
            put_pixel::<N>(samples, last, out, next);
        }
    } else {
        put_pixel::<N>(samples, last, out, at);
    }
}
