// A picture, or some bytes, moved from one place of a space to another. The places are numbers, not slices, since callers lend the
// space whole and both lie in it; that they are apart is judged, and refused by 8, in each public function.
ghost use Rattle.std.specs.Prelude.{◌≡◌, length};
ghost use Rattle.grids.specs.Exchange.{exchange};
ghost use Rattle.pictures.specs.Pictures.{picture, bytes, picture_bytes};
ghost use Rattle.seam_bounds.specs.Inner.{PlacesApart};
ghost use Rattle.seam_moves.specs.Between.{part_at, put_at, CopyBetweenGiven, ExchangeBetweenGiven};

use crate::columns::exchange_pixels;
use pictures::{AllowedSize, Refusal, Size};
use seam_bounds::lie_apart;

// The picture that stands at `from`, put with rows and columns exchanged at `to`. The rest of the space is left as it was.
// Refused by 2 and 3 as every size is, and by 8 where one of the two places reaches past the end of the space, or where
// they overlap.
pub fn exchange_between(space: &mut [u8], from: usize, size: Size, to: usize) -> Result<(), Refusal>
    ensures { ExchangeBetweenGiven space.old from size to result space.new }
{
    let allowed = AllowedSize::new(size)?;
    if !lie_apart(space.len(), from, to, allowed.picture_bytes()) {
        return Err(Refusal::Space);
    }
    exchange_places(space, from, allowed, to);
    Ok(())
}

// The `count` bytes that stand at `from`, copied to `to`. The rest of the space is left as it was. Refused by 8 where one of
// the two places reaches past the end of the space, or where they overlap.
pub fn copy_between(space: &mut [u8], from: usize, count: usize, to: usize) -> Result<(), Refusal>
    ensures { CopyBetweenGiven space.old from count to result space.new }
{
    if !lie_apart(space.len(), from, to, count) {
        return Err(Refusal::Space);
    }
    space.copy_within(from..from + count, to);
    Ok(())
}

// The space is cut between the two places, so that one can be read while the other is written.
fn exchange_places(space: &mut [u8], from: usize, allowed: AllowedSize, to: usize)
    requires { PlacesApart (length space.old) from to (picture_bytes allowed.size) }
    ensures { space.new ≡ put_at to (picture_bytes allowed.size) (bytes allowed.size.kind (exchange allowed.size.width (picture allowed.size (part_at from (picture_bytes allowed.size) space.old)))) space.old }
{
    let all = allowed.picture_bytes();
    if from < to {
        let (front, back) = space.split_at_mut(to);
        exchange_pixels(&front[from..from + all], allowed.size, &mut back[..all]);
    } else {
        let (front, back) = space.split_at_mut(from);
        exchange_pixels(&back[..all], allowed.size, &mut front[to..to + all]);
    }
}
