// One cell of the table, where two ways lead to it.
ghost use Rattle.std.specs.Prelude.{◌≡◌, ◌*◌, ◌<◌, length};
ghost use Rattle.seam_rules.specs.Counts.{left_size};
ghost use Rattle.seam_retarget.specs.Inner.Cells.{place_of, SeamOf, CellNeeded, CellGiven};

use crate::seams::Seam;
use crate::table::{HORIZONTAL, Table, VERTICAL};
use pictures::{AllowedSize, LARGEST_SIDE};
use seam_rules::{Axis, Columns, Rows, smaller};

impl Table {
    // The size of a cell's picture.
    pub(crate) fn cell_size(self, rows: Rows, columns: Columns) -> AllowedSize
        requires rows_left { rows.0 < self.size.size.height }
        requires columns_left { columns.0 < self.size.size.width }
        ensures { result.size ≡ left_size self.size.size rows columns }
    {
        AllowedSize {
            size: smaller(self.size.size, rows, columns),
        }
    }

    // The seam along the axis of a cell's picture.
    pub(crate) fn seam(self, rows: Rows, columns: Columns, axis: Axis) -> Seam
        requires rows_left { rows.0 < self.size.size.height }
        requires columns_left { columns.0 < self.size.size.width }
        ensures { SeamOf self rows columns axis result }
    {
        // the axis is a value: which of the two ways a cell takes is known from its totals
        let place = match axis {
            Axis::Vertical => VERTICAL,
            Axis::Horizontal => HORIZONTAL,
        };
        Seam {
            size: self.cell_size(rows, columns),
            axis,
            method: self.method,
            at: place * self.whole,
        }
    }

    // The cell with a row and a column more removed: from the cell above it, in its own slot, by a horizontal seam, or from the
    // cell to its left by a vertical one. Takes the totals of the two and gives the cell's.
    pub(crate) fn next_cell(
        self,
        work: &mut [u8],
        rows: Rows,
        columns: Columns,
        above: u64,
        left: u64,
    ) -> u64
        requires { CellNeeded self rows columns above left (length work.old) }
        ensures { CellGiven self rows columns above left work.old result work.new }
    {
        let from = columns.0 * self.whole;
        let slot = (columns.0 + 1) * self.whole;
        let horizontal = self.seam(rows, Columns(columns.0 + 1), Axis::Horizontal);
        let vertical = self.seam(Rows(rows.0 + 1), columns, Axis::Vertical);
        let mut across = [0u16; LARGEST_SIDE];
        let mut down = [0u16; LARGEST_SIDE];
        let by_row = above + horizontal.find(work, slot, &mut across);
        let by_column = left + vertical.find(work, from, &mut down);
        match seam_rules::smaller_total(by_column, by_row) {
            Axis::Vertical => {
                vertical.cut(work, &down, slot);
                by_column
            }
            Axis::Horizontal => {
                horizontal.cut(work, &across, slot);
                by_row
            }
        }
    }
}
