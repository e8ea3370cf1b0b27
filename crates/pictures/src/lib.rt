// The lowest layer: pictures in lent buffers, their rows as parts of the buffer, a space cleared, numbers of two bytes, and the
// numbers of what is refused.
#![tactic(auto)]

pub mod allowed;
pub mod numbers;
pub mod refusals;
pub mod sizes;
pub mod spaces;

ghost use Rattle.std.specs.Prelude.{◌≡◌};
ghost use Rattle.pictures.specs.Pictures.{row_of};

pub use allowed::AllowedSize;
pub use refusals::{Refusal, given, number};
pub use sizes::{
    Kind, LARGEST_SIDE, Size, WORK_A_PIXEL, judge_picture, judge_sides, picture_bytes, pixel_bytes,
    pixels, work_bytes,
};
pub use spaces::clear;

// Row r as that part of the lent picture itself; the empty part where there is no such row or 2 to 4 refuse the picture: hosts are
// given no number with it.
pub fn row<'a>(picture: &'a [u8], size: Size, r: usize) -> &'a [u8]
    ensures { result.now ≡ row_of size picture.now r }
{
    let Ok(()) = judge_picture(size, picture.len()) else {
        return &picture[..0];
    };
    if size.height <= r {
        return &picture[..0];
    }
    let stride = size.width * pixel_bytes(size.kind);
    let at = r * stride;
    &picture[at..at + stride]
}
