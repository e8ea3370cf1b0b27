// The map of a picture, built in a space.
#![tactic(auto, unfolding(pictures::specs::Pictures::pixel_bytes))]

mod carving;
mod numbering;

ghost use Rattle.std.specs.Prelude.{length};
ghost use Rattle.map_build.specs.Building.{MapInGiven};
ghost use Rattle.map_build.specs.Inner.Seams.{SeamsNeeded, SeamsGiven};

use energy::Method;
use map_rules::allowed;
use pictures::{AllowedSize, Refusal, Size, pixel_bytes};

// The map of this depth of the picture at the front of the work space. In the space stand, one after the other: the picture and what
// building takes, 28 bytes for each pixel; the map, two bytes for each pixel; and two bytes for each pixel that are left as they are,
// where a recorded map may stand. The picture is left without its first `depth` seams, packed at the front, and from there to the
// map every byte is 0. Refused by 2, 3, 6 and 8.
pub fn map_in(space: &mut [u8], size: Size, method: Method, depth: usize) -> Result<(), Refusal>
    ensures { MapInGiven space.old size method depth result space.new }
{
    let allowed = map_rules::judge_map_space(size, depth, space.len())?;
    cut_seams(space, allowed, method, depth);
    Ok(())
}

// The map where nothing is refused. What building took is cleared at its end, all at once.
fn cut_seams(space: &mut [u8], allowed: AllowedSize, method: Method, depth: usize)
    requires { SeamsNeeded allowed.size depth (length space.old) }
    ensures { SeamsGiven allowed.size method depth space.old space.new }
{
    let size = allowed.size;
    let left = size.height * ((size.width - depth) * pixel_bytes(size.kind));
    let (work, maps) = space.split_at_mut(allowed::map_at(allowed));
    let bytes = 2 * allowed.pixels();
    carving::carve(work, &mut maps[..bytes], allowed, method, depth);
    pictures::clear(&mut work[left..]);
}
