// Planes filled with what the pixels of a picture cost.
ghost use Rattle.std.specs.Prelude.{◌≡◌, false, length};
ghost use Rattle.pictures.specs.Pictures.{picture as Pictures·picture};
ghost use Rattle.energy.specs.declared.pixels.Step.TheVariants.{Up, Left, Right};
ghost use Rattle.seam_planes.specs.Planes.{numbers_of};
ghost use Rattle.seam_keep.specs.Keeping.{cost_grid, FillAsked};

use energy::{Method, energies, step_costs};
use pictures::{LARGEST_SIDE, Size};
use seam_planes::put_numbers;

// Fills a plane with what coming from straight above costs.
pub(crate) fn fill_energies(picture: &[u8], size: Size, method: Method, up: &mut [u8])
    requires { FillAsked size (length picture.now) (length up.old) }
    ensures { numbers_of size.width size.height up.new ≡ cost_grid method Up size.width size.height (Pictures·picture size picture.now) }
{
    let stride = 2 * size.width;
    let mut row = [0u32; LARGEST_SIDE];
    for r in 0..size.height {
        // Never refused: the picture is of its size.
        let _ = energies(picture, size, method, r, &mut row);
        let at = r * stride;
        put_numbers(&row[..size.width], &mut up[at..at + stride]);
    }
}

// Fills three planes with what coming from the left, from straight above and from the right costs.
pub(crate) fn fill_steps(
    picture: &[u8],
    size: Size,
    method: Method,
    left: &mut [u8],
    up: &mut [u8],
    right: &mut [u8],
)
    requires left { FillAsked size (length picture.now) (length left.old) }
    requires up { FillAsked size (length picture.now) (length up.old) }
    requires right { FillAsked size (length picture.now) (length right.old) }
    ensures left { numbers_of size.width size.height left.new ≡ cost_grid method Left size.width size.height (Pictures·picture size picture.now) }
    ensures up { numbers_of size.width size.height up.new ≡ cost_grid method Up size.width size.height (Pictures·picture size picture.now) }
    ensures right { numbers_of size.width size.height right.new ≡ cost_grid method Right size.width size.height (Pictures·picture size picture.now) }
{
    let width = size.width;
    let stride = 2 * width;
    let mut lefts = [0u32; LARGEST_SIDE];
    let mut ups = [0u32; LARGEST_SIDE];
    let mut rights = [0u32; LARGEST_SIDE];
    for r in 0..size.height {
        // Never refused: the picture is of its size.
        let _ = step_costs(picture, size, method, r, &mut lefts, &mut ups, &mut rights);
        let at = r * stride;
        let end = at + stride;
        put_numbers(&lefts[..width], &mut left[at..end]);
        put_numbers(&ups[..width], &mut up[at..end]);
        put_numbers(&rights[..width], &mut right[at..end]);
    }
}
