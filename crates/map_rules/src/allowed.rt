// The layout of a work space for a picture of an allowed size and its maps.
ghost use Rattle.std.specs.Prelude.{◌≡◌};
ghost use Rattle.map_rules.specs.Spaces.{map_at, recorded_at};

use pictures::AllowedSize;

// Where the map that is built stands: after 28 bytes for each pixel.
pub fn map_at(size: AllowedSize) -> usize
    ensures { result ≡ map_at size.size }
{
    28 * size.pixels()
}

// Where the recorded map stands: after the one that is built, two bytes for each pixel.
pub fn recorded_at(size: AllowedSize) -> usize
    ensures { result ≡ recorded_at size.size }
{
    30 * size.pixels()
}
