// The rows of a plane moved together.
ghost use Rattle.std.specs.Prelude.{◌≡◌, ◌*◌, length, take, map};
ghost use Rattle.grids.specs.Rows.{flat, rows_of};
ghost use Rattle.seam_planes.specs.Planes.{fronts};
ghost use Rattle.seam_planes.specs.Inner.{PackNeeded};

use pictures::LARGEST_SIDE;

// Puts the first `kept` bytes of each row of `stride` at the front, one row after the other. A row's bytes pass through `line`, since
// where they go overlaps where they are, and copy_within copies byte by byte.
pub(crate) fn pack_rows(plane: &mut [u8], stride: usize, kept: usize, height: usize)
    requires { PackNeeded stride kept height plane.old }
    ensures long { length plane.new ≡ length plane.old }
    ensures packed { take (height * kept) plane.new ≡ flat (fronts kept (rows_of stride height plane.old)) }
{
    let mut line = [0u8; 6 * LARGEST_SIDE];
    for r in 0..height {
        let at = r * stride;
        line[..kept].copy_from_slice(&plane[at..at + kept]);
        let dest = r * kept;
        plane[dest..dest + kept].copy_from_slice(&line[..kept]);
    }
}
