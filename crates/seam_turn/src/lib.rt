// Pictures turned so that a seam along an axis is vertical, and closed up along a seam of either axis.
#![tactic(auto)]

ghost use Rattle.seam_turn.specs.Turning.{TurnGiven, CloseAlongGiven};
ghost use Rattle.seam_turn.specs.Inner.{ColumnsNeeded};
ghost use Rattle.seam_rules.specs.declared.answers.Axis.TheVariants.{Horizontal};

use pictures::{Refusal, Size, clear};
use seam_bounds::judge_exchange;
use seam_close::close_up;
use seam_moves::exchange;
use seam_rules::{Axis, judge_close_along, narrower, turned_size};

// Puts the picture, turned for a seam along the axis, into the front of `to`. Refused by 2, 3 and 4 as every picture is, and by
// 8 where `to` is shorter than the picture.
pub fn turn(picture: &[u8], size: Size, axis: Axis, to: &mut [u8]) -> Result<(), Refusal>
    ensures { TurnGiven picture.now size axis to.old result to.new }
{
    // here and in close the axis is asked: it is a value, as hosts name it
    match axis {
        Axis::Vertical => {
            judge_exchange(size, picture.len(), to.len())?;
            to[..picture.len()].copy_from_slice(picture);
            Ok(())
        }
        Axis::Horizontal => exchange(picture, size, to),
    }
}

// Takes the seam's pixels out of the picture: each row is closed up to the left, or each column upward. The rows then lie packed
// at the front and the freed bytes are 0. For a horizontal seam the picture stands turned at the front of the work space, as `turn`
// puts it there: it is closed up there, and what is left is exchanged back. The work space isn't cleared. Refused by 2, 3 and 4 as
// every picture is, by 4 where the seam is too short or too long, by 8 where the work space is shorter than the picture, by 10
// where the seam leaves the picture, and by 13 at the last column or row.
pub fn close(
    picture: &mut [u8],
    size: Size,
    axis: Axis,
    seam: &[u16],
    work: &mut [u8],
) -> Result<(), Refusal>
    ensures { CloseAlongGiven picture.old size axis seam.now work.old result picture.new work.new }
{
    judge_close_along(size, axis, picture.len(), seam.len(), work.len())?;
    match axis {
        Axis::Vertical => close_up(picture, size, seam),
        Axis::Horizontal => close_columns(picture, size, seam, work),
    }
}

// Closes each column upward: the exchanged picture in the work space is closed up to the left and exchanged back.
fn close_columns(
    picture: &mut [u8],
    size: Size,
    seam: &[u16],
    work: &mut [u8],
) -> Result<(), Refusal>
    requires { ColumnsNeeded picture.old size seam.now work.old }
    ensures { CloseAlongGiven picture.old size Horizontal seam.now work.old result picture.new work.new }
{
    let bytes = picture.len();
    let turned = turned_size(Axis::Horizontal, size);
    close_up(&mut work[..bytes], turned, seam)?;
    let left = narrower(turned);
    let kept = pictures::picture_bytes(left);
    exchange(&work[..kept], left, picture)?;
    clear(&mut picture[kept..]);
    Ok(())
}
