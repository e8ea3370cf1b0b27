// A seam taken out of the rows of a plane, in place.
ghost use Rattle.std.specs.Prelude.{◌≡◌, ◌-◌, length};
ghost use Rattle.grids.specs.Rows.{cells};
ghost use Rattle.grids.specs.Cut.{cut};
ghost use Rattle.seam_planes.specs.Planes.{fronts};
ghost use Rattle.seam_planes.specs.Inner.{closed, RowNeeded, RowsNeeded};

use pictures::LARGEST_SIDE;

// Takes the seam's cell of n bytes out of the first `width` of each row, where a row has `stride`.
pub(crate) fn close_rows(plane: &mut [u8], n: usize, stride: usize, width: usize, seam: &[u16])
    requires { RowsNeeded n stride width seam.now plane.old }
    ensures long { length plane.new ≡ length plane.old }
    ensures closed { fronts (width - 1) (cells n stride (length seam.now) plane.new) ≡ cut seam.now (fronts width (cells n stride (length seam.now) plane.old)) }
{
    let mut line = [0u8; 6 * LARGEST_SIDE];
    for (r, column) in seam.iter().enumerate() {
        let at = r * (stride * n);
        let end = at + width * n;
        close_row(&mut plane[at..end], *column as usize * n, n, &mut line);
    }
}

// The row without the n bytes from `gap` on; its last n bytes stay. What follows the gap passes through `line`, since where it goes
// overlaps where it is. LLVM makes one memmove of the two copies.
fn close_row(row: &mut [u8], gap: usize, n: usize, line: &mut [u8])
    requires { RowNeeded row.old gap n line.old }
    ensures row { row.new ≡ closed n gap row.old }
    ensures line { length line.new ≡ length line.old }
{
    let past = gap + n;
    let count = row.len() - past;
    line[..count].copy_from_slice(&row[past..]);
    row[gap..gap + count].copy_from_slice(&line[..count]);
}
