// A seam closed up, row by row.
ghost use Rattle.std.specs.Prelude.{◌≡◌, ◌++◌, ◌-◌, ◌*◌, length, drop, replicate};
ghost use Rattle.grids.specs.Rows.{cells, flat_cells};
ghost use Rattle.grids.specs.Cut.{cut};
ghost use Rattle.pictures.specs.Pictures.{picture as Pictures·picture, bytes, pixel_bytes as Pictures·pixel_bytes};
ghost use Rattle.seam_close.specs.Inner.{without, RowNeeded, CellsNeeded, PixelsNeeded};

use pictures::{LARGEST_SIDE, Size, clear, pixel_bytes};

// The line without the n bytes from `gap` on, put into the front of out.
fn close_row(line: &[u8], gap: usize, n: usize, out: &mut [u8])
    requires { RowNeeded line.now gap n out.old }
    ensures { out.new ≡ without gap n line.now ++ drop (length line.now - n) out.old }
{
    let past = gap + n;
    let rest = &line[past..];
    out[..gap].copy_from_slice(&line[..gap]);
    out[gap..gap + rest.len()].copy_from_slice(rest);
}

// Takes the seam's pixel out of each row.
pub(crate) fn close_pixels(picture: &mut [u8], size: Size, seam: &[u16])
    requires { PixelsNeeded picture.old size seam.now }
    ensures { picture.new ≡ bytes size.kind (cut seam.now (Pictures·picture size picture.old)) ++ replicate (size.height * Pictures·pixel_bytes size.kind) 0 }
{
    close_rows(picture, pixel_bytes(size.kind), size.width, seam);
}

// Takes the seam's cell out of each row, where a row has `width` cells of n bytes. A row's bytes pass through `line`, since where they
// go overlaps where they are: by copy_within, which copies byte by byte, a retarget of a grey picture was measured 7 in 100 slower.
fn close_rows(rows: &mut [u8], n: usize, width: usize, seam: &[u16])
    requires { CellsNeeded rows.old n width seam.now }
    ensures { rows.new ≡ flat_cells (cut seam.now (cells n width (length seam.now) rows.old)) ++ replicate (length seam.now * n) 0 }
{
    let stride = width * n;
    let kept = stride - n;
    let mut line = [0u8; 6 * LARGEST_SIDE];
    for (r, column) in seam.iter().enumerate() {
        let at = r * stride;
        line[..stride].copy_from_slice(&rows[at..at + stride]);
        let gap = *column as usize * n;
        let dest = r * kept;
        close_row(&line[..stride], gap, n, &mut rows[dest..]);
    }
    let freed = seam.len() * kept;
    clear(&mut rows[freed..]);
}
