// The seams that a map records, judged by 10.
ghost use Rattle.std.specs.Prelude.{false, ◌≡◌, ◌<◌, ◌≤◌, length, take};
ghost use Rattle.grids.specs.Rows.{rows_of, row_at};
ghost use Rattle.seam_theory.specs.Paths.{near};
ghost use Rattle.map_theory.specs.Judged.{connected};
ghost use Rattle.pictures.specs.Numbers.{numbers_in};
ghost use Rattle.pictures.specs.Pictures.{largest_side};
ghost use Rattle.map_check.specs.Inner.Numbers.{Numbered};
ghost use Rattle.map_check.specs.Inner.Columns.{left_in, AheadNeeded, FillNeeded, ColumnsOf};

use crate::numbers::read_numbers;
use crate::recorded::RecordedMap;
use map_rules::{is_beside, remains};
use pictures::LARGEST_SIDE;

// How many pixels of a part of a row are left before seam t. Counted in 16 bits, of which a register holds four times as many as of
// 64.
fn left_in(part: &[u16], t: usize) -> u16
    requires { length part.now ≤ largest_side }
    ensures { result ≡ left_in t part.now }
{
    let mut left = 0;
    for v in part {
        if remains(t, *v as usize) {
            left += 1;
        }
    }
    left
}

// How many pixels ahead of place c of a row are left before seam t. Counted on the shorter side of the place, since it is known how
// many are left on both: all but t - 1.
fn left_ahead(row: &[u16], c: usize, t: usize) -> u16
    requires { AheadNeeded row.now c t }
    ensures { result ≡ left_in t (take c row.now) }
{
    if c < row.len() / 2 {
        return left_in(&row[..c], t);
    }
    (row.len() + 1 - t) as u16 - left_in(&row[c..], t)
}

// Writes the column of each number t of a row, in what is left of the row before seam t, as the t-th.
fn fill_columns(row: &[u16], columns: &mut [u16])
    requires { FillNeeded row.now (length columns.old) }
    ensures { ColumnsOf row.now columns.new }
{
    for (c, v) in row.iter().enumerate() {
        let t = *v as usize;
        if t != 0 {
            columns[t] = left_ahead(row, c, t);
        }
    }
}

impl RecordedMap<'_> {
    // The same of row r of the map.
    fn columns_at(&self, r: usize, columns: &mut [u16])
        requires inside { r < self.now.height }
        requires numbered { Numbered self.now.bytes.now self.now.width self.now.height self.now.depth }
        requires room { self.now.depth < length columns.old }
        ensures { ColumnsOf (row_at self.now.width r (numbers_in self.now.bytes.now)) columns.new }
    {
        let mut space = [0u16; LARGEST_SIDE];
        let row = &mut space[..self.width];
        let at = r * (2 * self.width);
        read_numbers(&self.bytes[at..at + 2 * self.width], row);
        fill_columns(row, columns);
    }

    // Whether each seam that the map records is connected in the picture left before it. The table of their columns is filled row by
    // row, and of its rows only the two are kept between which a step is judged. Nested loops, left by a label at the first broken
    // step, as docs/DECISIONS.md lists among the language forms.
    pub(crate) fn is_connected(&self) -> bool
        requires { Numbered self.now.bytes.now self.now.width self.now.height self.now.depth }
        ensures { result ≡ connected (near false) self.now.width self.now.depth (rows_of self.now.width self.now.height (numbers_in self.now.bytes.now)) }
    {
        let mut good = true;
        let mut here = [0u16; LARGEST_SIDE];
        let mut next = [0u16; LARGEST_SIDE];
        self.columns_at(0, &mut here);
        'rows: for r in 0..self.height - 1 {
            self.columns_at(r + 1, &mut next);
            for t in 1..self.depth + 1 {
                if !is_beside(here[t] as usize, next[t] as usize) {
                    good = false;
                    break 'rows;
                }
            }
            here = next;
        }
        good
    }
}
