// A seam's number written into a map, where its pixels stood at first.
ghost use Rattle.std.specs.Prelude.{◌≡◌, ◌+◌, ◌*◌, ◌≤◌, length};
ghost use Rattle.map_build.specs.Inner.Columns.{NumberNeeded, put_pair, put_rows, taken_columns};

use pictures::numbers;

// Writes the number into each row of the map, at the column in which the pixel stood at first that the seam takes. A row of the map
// has `stride` numbers, and a row of `columns` has the first columns of the pixels left.
pub(crate) fn number_rows(map: &mut [u8], columns: &[u8], stride: usize, seam: &[u16], number: u16)
    requires { NumberNeeded stride seam.now columns.now map.old }
    ensures { map.new ≡ put_rows number stride (taken_columns stride columns.now seam.now) map.old }
{
    let line = 2 * stride;
    for (r, column) in seam.iter().enumerate() {
        let at = r * line;
        let from = at + 2 * *column as usize;
        let first = numbers::number(columns[from], columns[from + 1]);
        put_number(&mut map[at..at + line], first as usize, number);
    }
}

// The c-th number of a row.
fn put_number(row: &mut [u8], c: usize, number: u16)
    requires { 2 * c + 2 ≤ length row.old }
    ensures { row.new ≡ put_pair number c row.old }
{
    row[2 * c..2 * c + 2].copy_from_slice(&number.to_le_bytes());
}
