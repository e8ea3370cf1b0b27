// Rows and columns removed together: a table of cells, in which each comes from the smaller of two totals by one seam.
#![tactic(auto, unfolding(pictures::specs::Pictures::pixel_bytes))]

mod cells;
mod rows;
mod seams;
mod table;

ghost use Rattle.seam_retarget.specs.Retargeting.{RetargetGiven};
ghost use Rattle.seam_retarget.specs.Inner.Retargets.{RetargetNeeded, LastGiven};

use energy::Method;
use pictures::{AllowedSize, Refusal, Size};
use seam_rules::{Columns, Rows, judge_retarget};
use table::{SLOTS, Table};

// Puts the picture with `rows` rows and `columns` columns less into the front of out and gives the total of its seams, each
// found by the method. Refused by 2, 3 and 4 as every picture is, by 7 where either count is over 64 or leaves nothing, and
// by 8.
pub fn retarget(
    picture: &[u8],
    size: Size,
    method: Method,
    rows: Rows,
    columns: Columns,
    out: &mut [u8],
    work: &mut [u8],
) -> Result<u64, Refusal>
    ensures { RetargetGiven picture.now size method rows columns out.old work.old result out.new work.new }
{
    judge_retarget(size, rows, columns, picture.len(), out.len(), work.len())?;
    Ok(last_cell(picture, size, method, rows, columns, out, work))
}

// The last cell, where nothing is refused: its picture put into the front of out, and its total.
fn last_cell(
    picture: &[u8],
    size: Size,
    method: Method,
    rows: Rows,
    columns: Columns,
    out: &mut [u8],
    work: &mut [u8],
) -> u64
    requires { RetargetNeeded picture.now size rows columns out.old work.old }
    ensures { LastGiven picture.now size method rows columns out.old work.old result out.new work.new }
{
    let table = Table {
        size: AllowedSize { size },
        method,
        whole: picture.len(),
    };
    let mut totals = [0u64; SLOTS];
    work[..picture.len()].copy_from_slice(picture);
    table.first_row(work, columns, &mut totals);
    table.rows_below(work, rows, columns, &mut totals);
    let count = table.cell_size(rows, columns).picture_bytes();
    let at = columns.0 * table.whole;
    out[..count].copy_from_slice(&work[at..at + count]);
    pictures::clear(work);
    totals[columns.0]
}
