// Costs put into the rows of a plane, beside a seam.
ghost use Rattle.std.specs.Prelude.{◌≡◌, ◌+◌, ◌*◌, ◌≤◌, true, length};
ghost use Rattle.grids.specs.Table.{table};
ghost use Rattle.pictures.specs.Numbers.{numbers_in};
ghost use Rattle.seam_planes.specs.Planes.{numbers_of};
ghost use Rattle.seam_keep.specs.Inner.{put_where, refreshed_row, refreshed_at, RefreshNeeded};

use energy::{BesideCosts, CarvedPicture, Method, Step};

// Works out anew what the pixels beside the seam cost, and puts it into the plane. Each row is lent once, and what has no place in it is
// worked out in vain: only where the seam runs along an edge.
pub(crate) fn refresh_rows(
    picture: &CarvedPicture<'_>,
    method: Method,
    from: Step,
    seam: &[u16],
    plane: &mut [u8],
)
    requires { RefreshNeeded picture.now.size picture.now.width (length seam.now) (length picture.now.bytes.now) (length plane.old) }
    ensures { numbers_of picture.now.size.width picture.now.size.height plane.new ≡ table (refreshed_at method from picture.now.size picture.now.width picture.now.bytes.now seam.now (numbers_of picture.now.size.width picture.now.size.height plane.old)) picture.now.size.height }
{
    let width = picture.width;
    let stride = 2 * picture.size.width;
    for (r, column) in seam.iter().enumerate() {
        let c = *column as usize;
        let costs = picture.costs_beside(method, from, r, c);
        let at = r * stride;
        refresh_row(&mut plane[at..at + stride], width, c, costs);
    }
}

// Puts a number before column c of a row and one at it, where `width` numbers of the row count.
fn refresh_row(row: &mut [u8], width: usize, c: usize, costs: BesideCosts)
    requires { 2 * width ≤ length row.old }
    ensures { numbers_in row.new ≡ refreshed_row width c costs.before costs.here (numbers_in row.old) }
{
    put_where(row, 0 < c && c <= width, c.saturating_sub(1), costs.before);
    put_where(row, c < width, c, costs.here);
}

// Puts a number at column c of a row, two bytes, where there is such a column.
fn put_where(row: &mut [u8], there: bool, c: usize, number: u32)
    requires { there ≡ true → 2 * c + 2 ≤ length row.old }
    ensures { numbers_in row.new ≡ put_where there c number (numbers_in row.old) }
{
    if there {
        let low = (number % 65536) as u16;
        row[2 * c..2 * c + 2].copy_from_slice(&low.to_le_bytes());
    }
}
