// The table of cells, one row of it at a time: slot j of the work space holds the picture of the row's cell j, and totals[j]
// its total. Work space and totals are lent as two, since each function promises what each of the two holds afterwards.
ghost use Rattle.seam_rules.specs.Counts.{row_count};
ghost use Rattle.seam_retarget.specs.Inner.Cells.{row_more};
ghost use Rattle.seam_retarget.specs.Inner.Table.{held, first_row, along_row, next_row, table_row, RowGiven, FirstRowNeeded, RestOfRowNeeded, NextRowNeeded, RowsBelowNeeded};

use crate::table::{SLOTS, Table};
use seam_rules::{Axis, Columns, Rows};

impl Table {
    // Row 0, from the picture in slot 0.
    pub(crate) fn first_row(self, work: &mut [u8], columns: Columns, totals: &mut [u64; SLOTS])
        requires { FirstRowNeeded self columns work.old totals.old }
        ensures { RowGiven self (row_count 0) columns (first_row self.method self.size.size (held self (row_count 0) work.old totals.old 0)) work.old work.new totals.new }
    {
        // by index: j is a count of columns, and names a slot
        for j in 0..columns.0 {
            let seam = self.seam(Rows(0), Columns(j), Axis::Vertical);
            let cost = seam.step(work, j * self.whole, (j + 1) * self.whole);
            totals[j + 1] = totals[j] + cost;
        }
    }

    // The row below row `rows`, whose first cell stands in slot 0 already.
    fn rest_of_row(self, work: &mut [u8], rows: Rows, columns: Columns, totals: &mut [u64; SLOTS])
        requires { RestOfRowNeeded self rows columns work.old totals.old }
        ensures { RowGiven self (row_more rows) columns (along_row self.method self.size.size rows (held self (row_more rows) work.old totals.old 0) (held self rows work.old totals.old)) work.old work.new totals.new }
    {
        // by index, for the same reason
        for j in 0..columns.0 {
            totals[j + 1] = self.next_cell(work, rows, Columns(j), totals[j + 1], totals[j]);
        }
    }

    // The row below row `rows`.
    fn next_row(self, work: &mut [u8], rows: Rows, columns: Columns, totals: &mut [u64; SLOTS])
        requires { NextRowNeeded self rows columns work.old totals.old }
        ensures { RowGiven self (row_more rows) columns (next_row self.method self.size.size rows (held self rows work.old totals.old)) work.old work.new totals.new }
    {
        let seam = self.seam(rows, Columns(0), Axis::Horizontal);
        let cost = seam.step(work, 0, 0);
        totals[0] += cost;
        self.rest_of_row(work, rows, columns, totals);
    }

    // Row `rows`, from row 0.
    pub(crate) fn rows_below(
        self,
        work: &mut [u8],
        rows: Rows,
        columns: Columns,
        totals: &mut [u64; SLOTS],
    )
        requires { RowsBelowNeeded self rows columns work.old totals.old }
        ensures { RowGiven self rows columns (table_row self.method self.size.size (held self (row_count 0) work.old totals.old) rows) work.old work.new totals.new }
    {
        // i is a count of rows, which names a row of the table; no list has one for each
        for i in 0..rows.0 {
            self.next_row(work, Rows(i), columns, totals);
        }
    }
}
