// What refuses finding, cutting and closing up a seam, as functions of sizes and lengths: of a buffer the length alone decides,
// so the lengths are passed as numbers, each under its own name.
ghost use Rattle.std.specs.Prelude.{◌≡◌, ◌++◌};
ghost use Rattle.pictures.specs.Refusals.{given, refusal};
ghost use Rattle.seam_rules.specs.Cuts.{find_rules, mark_length_rules, close_along_lengths, last_along, mark_allowed};
ghost use Rattle.pictures.specs.Pictures.{size_rules};

use crate::answers::Axis;
use crate::axes::turned_size;
use pictures::{Refusal, Size};

// Which of 2, 3, 4 and 8 refuses finding a seam along the axis in buffers of these lengths, or none.
pub fn judge_find(
    size: Size,
    axis: Axis,
    bytes: usize,
    seam: usize,
    work: usize,
) -> Result<(), Refusal>
    ensures { given result ≡ refusal (find_rules axis size bytes seam work) }
{
    pictures::judge_picture(size, bytes)?;
    if seam < turned_size(axis, size).height || work < pictures::work_bytes(size) {
        return Err(Refusal::Space);
    }
    Ok(())
}

// Which of 2, 3 and 4 refuses a picture of `bytes` bytes with `marks` marks, or none.
pub fn judge_marks(size: Size, bytes: usize, marks: usize) -> Result<(), Refusal>
    ensures { given result ≡ refusal (size_rules size bytes ++ mark_length_rules size marks) }
{
    pictures::judge_picture(size, bytes)?;
    if marks != pictures::pixels(size) {
        return Err(Refusal::Count);
    }
    Ok(())
}

// Whether the mark is one of 0, 1 and 2; 5 refuses every other. A mark is a byte, as hosts lend it, and this its one rule.
pub fn allows_mark(mark: u8) -> bool
    ensures { result ≡ mark_allowed mark }
{
    mark <= 2
}

// Which of 2, 3, 4 and 8 refuses closing up a seam along the axis in buffers of these lengths, or none. Not by judge_find: a seam
// that is too long is refused too, by 4, and the work space is as long as the picture.
pub fn judge_close_along(
    size: Size,
    axis: Axis,
    bytes: usize,
    seam: usize,
    work: usize,
) -> Result<(), Refusal>
    ensures { given result ≡ refusal (close_along_lengths axis size bytes seam work) }
{
    pictures::judge_picture(size, bytes)?;
    if seam != turned_size(axis, size).height {
        return Err(Refusal::Count);
    }
    if work < bytes {
        return Err(Refusal::Space);
    }
    Ok(())
}

// Whether a cut along the axis takes the last column or row, which 13 refuses.
pub fn takes_last(axis: Axis, size: Size) -> bool
    ensures { result ≡ last_along axis size }
{
    turned_size(axis, size).width == 1
}
