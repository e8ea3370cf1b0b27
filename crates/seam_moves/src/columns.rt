// Rows and columns exchanged, column by column.
ghost use Rattle.std.specs.Prelude.{◌≡◌, ◌++◌, ◌*◌, length, drop};
ghost use Rattle.grids.specs.Rows.{cells, flat_cells};
ghost use Rattle.grids.specs.Exchange.{exchange};
ghost use Rattle.pictures.specs.Pictures.{picture, bytes, pixel_bytes, picture_bytes};
ghost use Rattle.seam_moves.specs.Moving.{column_bytes};
ghost use Rattle.seam_moves.specs.Inner.{column_cells, ColumnNeeded, ExchangeNeeded, ColumnCellsNeeded, CellsNeeded};

use pictures::{Kind, Size};

// Each column of the picture, put into `to` as a row. Each kind has a loop of its own, since a number of bytes that is known is copied
// much faster.
pub(crate) fn exchange_pixels(from: &[u8], size: Size, to: &mut [u8])
    requires { ExchangeNeeded from.now size to.old }
    ensures { to.new ≡ bytes size.kind (exchange size.width (picture size from.now)) ++ drop (picture_bytes size) to.old }
{
    match size.kind {
        Kind::Grey => exchange_cells::<1>(from, size.width, size.height, to),
        Kind::Rgb => exchange_cells::<3>(from, size.width, size.height, to),
    }
}

// The pixels of column c from the top, put into the front of out.
pub(crate) fn put_pixels(from: &[u8], size: Size, c: usize, out: &mut [u8])
    requires { ColumnNeeded from.now size c out.old }
    ensures { out.new ≡ column_bytes size from.now c ++ drop (size.height * pixel_bytes size.kind) out.old }
{
    match size.kind {
        Kind::Grey => put_cells::<1>(from, size.width, size.height, c, out),
        Kind::Rgb => put_cells::<3>(from, size.width, size.height, c, out),
    }
}

// Each column of `height` rows of `width` cells, each of N bytes, put into `to` as a row.
fn exchange_cells<const N: usize>(from: &[u8], width: usize, height: usize, to: &mut [u8])
    requires { CellsNeeded N width height from.now to.old }
    ensures { to.new ≡ flat_cells (exchange width (cells N width height from.now)) ++ drop (height * (width * N)) to.old }
{
    let stride = height * N;
    // by index: chunks_exact_mut promises nothing of what is written through its parts
    for c in 0..width {
        let at = c * stride;
        put_cells::<N>(from, width, height, c, &mut to[at..at + stride]);
    }
}

// The cells of column c from the top, put into the front of out.
fn put_cells<const N: usize>(from: &[u8], width: usize, height: usize, c: usize, out: &mut [u8])
    requires { ColumnCellsNeeded N width height from.now c out.old }
    ensures { out.new ≡ column_cells N width height from.now c ++ drop (height * N) out.old }
{
    let stride = width * N;
    let left = c * N;
    // by index, for the same reason; a row of `from` would be lent by chunks_exact only for one cell of it
    for r in 0..height {
        let i = r * stride + left;
        let j = r * N;
        put_cell(&from[i..i + N], &mut out[j..j + N]);
    }
}

// The bytes of a cell. By index, since nothing is promised of what is written through a zip.
fn put_cell(from: &[u8], out: &mut [u8])
    requires { length out.old ≡ length from.now }
    ensures { out.new ≡ from.now }
{
    for (k, byte) in out.iter_mut().enumerate() {
        *byte = from[k];
    }
}
