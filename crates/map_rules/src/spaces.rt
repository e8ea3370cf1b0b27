// The layout of a work space for a picture of any size and its maps, and whether buffers are as long as pictures, maps and rows ask.
ghost use Rattle.std.specs.Prelude.{◌≡◌, ◌*◌, eqb, leb, IfOk};
ghost use Rattle.pictures.specs.Refusals.{given, refusal, served};
ghost use Rattle.pictures.specs.Pictures.{pixel_bytes, side_rules};
ghost use Rattle.map_rules.specs.Spaces.{map_at, recorded_at, map_space_rules};

use crate::allowed;
use pictures::{AllowedSize, Kind, Refusal, Size};

// These two beside those of `allowed`, since any size may be asked by, and 0 is promised where it is refused.

// Where the map that is built stands in a work space; 0 where the sides are refused.
pub fn map_at(size: Size) -> usize
    ensures { result ≡ served (refusal (side_rules size)) (map_at size) 0 }
{
    AllowedSize::new(size).map_or(0, allowed::map_at)
}

// Where the recorded map stands in a work space, which is where the one that is built ends; 0 where the sides are refused.
pub fn recorded_at(size: Size) -> usize
    ensures { result ≡ served (refusal (side_rules size)) (recorded_at size) 0 }
{
    AllowedSize::new(size).map_or(0, allowed::recorded_at)
}

// The size, or which of 2, 3, 6 and 8 refuses a map of this depth in a work space of this length.
pub fn judge_map_space(size: Size, depth: usize, space: usize) -> Result<AllowedSize, Refusal>
    ensures number { given result ≡ refusal (map_space_rules size depth space) }
    ensures same { IfOk result (λ allowed. allowed.size ≡ size) }
{
    let allowed = AllowedSize::new(size)?;
    if size.width <= depth {
        return Err(Refusal::Range);
    }
    if space < allowed.work_bytes() {
        return Err(Refusal::Space);
    }
    Ok(allowed)
}

// Whether a row of this many samples has this many pixels.
pub fn has_pixels(kind: Kind, samples: usize, pixels: usize) -> bool
    ensures { result ≡ eqb samples (pixels * pixel_bytes kind) }
{
    let n = pictures::pixel_bytes(kind);
    samples % n == 0 && samples / n == pixels
}

// Whether a space of this many bytes has room for this many pixels.
pub fn holds_pixels(kind: Kind, bytes: usize, pixels: usize) -> bool
    ensures { result ≡ leb (pixels * pixel_bytes kind) bytes }
{
    pixels <= bytes / pictures::pixel_bytes(kind)
}
