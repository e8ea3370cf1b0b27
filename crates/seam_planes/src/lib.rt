// Planes of a picture that is carved in a space: seams closed up in place, numbers put into a row, and the picture packed at the end.
#![tactic(auto, unfolding(pictures::specs::Pictures::pixel_bytes))]

mod packing;
mod rows;

ghost use Rattle.std.specs.Prelude.{◌≡◌, ◌-◌, ◌*◌, ◌≤◌, ℕ, length, take, get_or};
ghost use Rattle.grids.specs.Cut.{cut};
ghost use Rattle.pictures.specs.Refusals.{refusal};
ghost use Rattle.pictures.specs.Numbers.{pairs, largest_number};
ghost use Rattle.pictures.specs.Pictures.{side_rules, pixel_bytes as Pictures·pixel_bytes, picture_bytes, picture as Pictures·picture, bytes};
ghost use Rattle.seam_planes.specs.Planes.{fronts, numbers_of, NumbersSeam, PictureSeam};

use packing::pack_rows;
use pictures::{AllowedSize, LARGEST_SIDE, Size, pixel_bytes};
use rows::close_rows;
use seam_bounds::has_outside;

// Takes the seam's number out of each row of a plane of numbers, `stride` of them a row, of which the first `width` count. What then stands
// after the numbers that are left is of no account. Where there is no such plane or seam, nothing is promised but its length.
pub fn close_numbers(plane: &mut [u8], stride: usize, width: usize, seam: &[u16])
    ensures long { length plane.new ≡ length plane.old }
    ensures closed { NumbersSeam stride width seam.now (length plane.old) → fronts (width - 1) (numbers_of stride (length seam.now) plane.new) ≡ cut seam.now (fronts width (numbers_of stride (length seam.now) plane.old)) }
{
    if LARGEST_SIDE < stride || LARGEST_SIDE < seam.len() || stride < width {
        return;
    }
    if plane.len() != seam.len() * (2 * stride) || has_outside(seam, width) {
        return;
    }
    close_rows(plane, 2, stride, width, seam);
}

// The same of a picture, whose rows stand as far apart as at this size, and of which the first `width` columns are left.
pub fn close_picture(picture: &mut [u8], size: Size, width: usize, seam: &[u16])
    ensures long { length picture.new ≡ length picture.old }
    ensures closed { PictureSeam size width seam.now (length picture.old) → fronts (width - 1) (Pictures·picture size picture.new) ≡ cut seam.now (fronts width (Pictures·picture size picture.old)) }
{
    let Ok(allowed) = AllowedSize::new(size) else {
        return;
    };
    if size.width < width || seam.len() != size.height {
        return;
    }
    if picture.len() != allowed.picture_bytes() || has_outside(seam, width) {
        return;
    }
    close_rows(picture, pixel_bytes(size.kind), size.width, width, seam);
}

// Packs the columns that are left of a picture at its front, row by row. What then stands after them is of no account. Where there is no
// such picture, nothing is promised but its length.
pub fn pack_picture(picture: &mut [u8], size: Size, width: usize)
    ensures long { length picture.new ≡ length picture.old }
    ensures packed { (refusal (side_rules size) ≡ 0) × (width ≤ size.width) × (length picture.old ≡ picture_bytes size) → take (size.height * (width * Pictures·pixel_bytes size.kind)) picture.new ≡ bytes size.kind (fronts width (Pictures·picture size picture.old)) }
{
    let Ok(allowed) = AllowedSize::new(size) else {
        return;
    };
    if picture.len() != allowed.picture_bytes() {
        return;
    }
    if size.width <= width {
        return;
    }
    let pixel = pixel_bytes(size.kind);
    pack_rows(picture, size.width * pixel, width * pixel, size.height);
}

// Puts numbers into a row of a plane, two bytes each. Where the row isn't as long as they are, nothing is promised but its length. By
// index: of what `chunks_exact_mut` lends nothing is known afterwards.
pub fn put_numbers(numbers: &[u32], row: &mut [u8])
    ensures long { length row.new ≡ length row.old }
    ensures put { (length row.old ≡ 2 * length numbers.now) × ((i : ℕ) → get_or numbers.now i 0 ≤ largest_number) → row.new ≡ pairs numbers.now }
{
    if row.len() != 2 * numbers.len() {
        return;
    }
    for (c, number) in numbers.iter().enumerate() {
        let lower = (*number % 65536) as u16;
        row[2 * c..2 * c + 2].copy_from_slice(&lower.to_le_bytes());
    }
}
