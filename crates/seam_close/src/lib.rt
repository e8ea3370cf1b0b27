// A seam closed up in a lent picture.
#![tactic(auto)]

mod rows;

ghost use Rattle.seam_close.specs.Closing.{CloseGiven};

use pictures::{Refusal, Size};
use seam_bounds::{has_outside, judge_close_columns, judge_close_lengths};

// Takes the seam's pixel out of each row. The rows then lie packed at the front of the picture and the freed bytes are 0.
// Refused by 2, 3 and 4 as every picture is, by 4 where the seam hasn't one column for each row, by 10 where one of its
// columns is outside the picture, and by 13 at the last column.
pub fn close_up(picture: &mut [u8], size: Size, seam: &[u16]) -> Result<(), Refusal>
    ensures { CloseGiven picture.old size seam.now result picture.new }
{
    judge_close_lengths(size, picture.len(), seam.len())?;
    judge_close_columns(size.width, has_outside(seam, size.width))?;
    rows::close_pixels(picture, size, seam);
    Ok(())
}
