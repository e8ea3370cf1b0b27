// Kinds and sizes of pictures, the bytes that they take, and which sizes are refused.
ghost use Rattle.std.specs.Prelude.{◌≡◌};
ghost use Rattle.pictures.specs.Refusals.{given, refusal, served};
ghost use Rattle.pictures.specs.Pictures.{pixel_bytes, picture_bytes, pixels as Pictures·pixels, work_bytes, side_rules, size_rules};

use crate::allowed::AllowedSize;
use crate::refusals::Refusal;

// The largest width and the largest height of a picture.
pub const LARGEST_SIDE: usize = 512;

// Bytes of work space for each pixel.
pub const WORK_A_PIXEL: usize = 32;

#[derive(Clone, Copy, Debug, PartialEq, Eq)]
pub enum Kind {
    Grey,
    Rgb,
}

// A size stands beside the bytes that it is the size of, as hosts pass the two: the bytes are now read, now written, and a part of a
// space that is cut again by another size.
#[derive(Clone, Copy, Debug, PartialEq, Eq)]
pub struct Size {
    pub width: usize,
    pub height: usize,
    pub kind: Kind,
}

// Bytes a pixel.
#[tactic(auto, unfolding(crate::specs::Pictures::pixel_bytes))]
pub fn pixel_bytes(kind: Kind) -> usize
    ensures { result ≡ pixel_bytes kind }
{
    match kind {
        Kind::Grey => 1,
        Kind::Rgb => 3,
    }
}

// Whether the sides are allowed, or which of 2 and 3 refuses them.
pub fn judge_sides(size: Size) -> Result<(), Refusal>
    ensures { given result ≡ refusal (side_rules size) }
{
    if size.width == 0 || size.height == 0 {
        return Err(Refusal::ZeroSide);
    }
    if LARGEST_SIDE < size.width || LARGEST_SIDE < size.height {
        return Err(Refusal::TooLarge);
    }
    Ok(())
}

// Bytes of a picture of this size; 0 where its sides are refused, since this and the next two are promised for any size.
pub fn picture_bytes(size: Size) -> usize
    ensures { result ≡ served (refusal (side_rules size)) (picture_bytes size) 0 }
{
    AllowedSize::new(size).map_or(0, |allowed| allowed.picture_bytes())
}

// Pixels of a picture of this size; 0 where its sides are refused.
pub fn pixels(size: Size) -> usize
    ensures { result ≡ served (refusal (side_rules size)) (Pictures·pixels size) 0 }
{
    AllowedSize::new(size).map_or(0, |allowed| allowed.pixels())
}

// Bytes of work space that an operation on a picture of this size asks for; 0 where its sides are refused.
pub fn work_bytes(size: Size) -> usize
    ensures { result ≡ served (refusal (side_rules size)) (work_bytes size) 0 }
{
    AllowedSize::new(size).map_or(0, |allowed| allowed.work_bytes())
}

// Whether a buffer of this many bytes is a picture of this size, or which of 2, 3 and 4 refuses it.
pub fn judge_picture(size: Size, bytes: usize) -> Result<(), Refusal>
    ensures { given result ≡ refusal (size_rules size bytes) }
{
    let allowed = AllowedSize::new(size)?;
    if bytes != allowed.picture_bytes() {
        return Err(Refusal::Count);
    }
    Ok(())
}
