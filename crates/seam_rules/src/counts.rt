// What a retarget decides: which counts of rows and columns are refused, what size is left, and which of two totals is taken.
// Rows and columns are counted apart, as hosts give them: a seam more adds one to one of the two.
ghost use Rattle.std.specs.Prelude.{◌≡◌};
ghost use Rattle.pictures.specs.Refusals.{given, refusal};
ghost use Rattle.seam_rules.specs.Counts.{left_size, retarget_rules, chosen_axis};

use crate::answers::{Axis, Columns, Rows};
use pictures::{Refusal, Size};

// The largest count of rows, and of columns, that are removed.
pub const LARGEST_COUNT: usize = 64;

// The size with `rows` rows and `columns` columns less; a side stops at 0.
pub fn smaller(size: Size, rows: Rows, columns: Columns) -> Size
    ensures { result ≡ left_size size rows columns }
{
    Size {
        width: size.width.saturating_sub(columns.0),
        height: size.height.saturating_sub(rows.0),
        ..size
    }
}

// Which of 2, 3, 4, 7 and 8 refuses a retarget by these counts in buffers of these lengths, or none.
pub fn judge_retarget(
    size: Size,
    rows: Rows,
    columns: Columns,
    bytes: usize,
    out: usize,
    work: usize,
) -> Result<(), Refusal>
    ensures { given result ≡ refusal (retarget_rules size rows columns bytes out work) }
{
    pictures::judge_picture(size, bytes)?;
    if LARGEST_COUNT < rows.0 || LARGEST_COUNT < columns.0 {
        return Err(Refusal::NotOffered);
    }
    if size.height <= rows.0 || size.width <= columns.0 {
        return Err(Refusal::NotOffered);
    }
    let left = pictures::picture_bytes(smaller(size, rows, columns));
    if out < left || work < pictures::work_bytes(size) + (LARGEST_COUNT + 2) * bytes {
        return Err(Refusal::Space);
    }
    Ok(())
}

// The axis of the cut to a cell, from the totals of its two ways: the smaller, on a tie the vertical cut.
pub fn smaller_total(vertical: u64, horizontal: u64) -> Axis
    ensures { result ≡ chosen_axis vertical horizontal }
{
    if vertical <= horizontal {
        Axis::Vertical
    } else {
        Axis::Horizontal
    }
}
