// What the pixels of a picture cost that is carved in a space, kept from one cut to the next.
#![tactic(auto, unfolding(pictures::specs::Pictures::pixel_bytes))]

mod filling;
mod rows;

ghost use Rattle.std.specs.Prelude.{◌≡◌, ◌+◌, true, false, ℕ, length};
ghost use Rattle.pictures.specs.Pictures.{picture as Pictures·picture};
ghost use Rattle.energy.specs.declared.pixels.Step.TheVariants.{Up, Left, Right};
ghost use Rattle.energy.specs.Energy.{one_cost, costs_at};
ghost use Rattle.energy.specs.Methods.{wrap_of};
ghost use Rattle.energy.specs.Pixels.{cost_to};
ghost use Rattle.seam_planes.specs.Planes.{fronts, numbers_of};
ghost use Rattle.seam_keep.specs.Refresh.{refreshed};
ghost use Rattle.seam_keep.specs.Keeping.{cost_grid, FillAsked, StepsAsked, KeepAsked};

use energy::{CarvedPicture, Method, Step};
use pictures::{AllowedSize, Size};
use seam_planes::close_numbers;

// Puts what the pixels of a picture cost into a plane of numbers, and by forward what coming from the left and from the right costs into two
// more. Where a plane isn't as long as it must be, or the picture isn't of its size, nothing is promised but the lengths.
pub fn fill_costs(
    picture: &[u8],
    size: Size,
    method: Method,
    up: &mut [u8],
    left: &mut [u8],
    right: &mut [u8],
)
    ensures long { (length up.new ≡ length up.old) × (length left.new ≡ length left.old) × (length right.new ≡ length right.old) }
    ensures up { FillAsked size (length picture.now) (length up.old) → numbers_of size.width size.height up.new ≡ cost_grid method Up size.width size.height (Pictures·picture size picture.now) }
    ensures alone { one_cost method.energy ≡ true → (left.new ≡ left.old) × (right.new ≡ right.old) }
    ensures steps { one_cost method.energy ≡ false → StepsAsked size (length picture.now) (length up.old) (length left.old) (length right.old) → (numbers_of size.width size.height left.new ≡ cost_grid method Left size.width size.height (Pictures·picture size picture.now)) × (numbers_of size.width size.height right.new ≡ cost_grid method Right size.width size.height (Pictures·picture size picture.now)) }
{
    if !is_sized(size, picture.len(), up.len()) {
        return;
    }
    let planes = left.len() == up.len() && right.len() == up.len();
    if planes && !method.energy.has_one_cost() {
        filling::fill_steps(picture, size, method, left, up, right);
    } else {
        filling::fill_energies(picture, size, method, up);
    }
}

// Keeps the costs of coming from one side, where a seam was just cut from the picture: each pixel carries its own along, and those are
// worked out anew that have a new neighbour. The picture's rows stand as far apart as at this size, and its first `width` columns are
// left. Where that isn't so, nothing is promised but the length.
pub fn keep_costs(
    picture: &[u8],
    size: Size,
    width: usize,
    method: Method,
    from: Step,
    seam: &[u16],
    plane: &mut [u8],
)
    ensures long { length plane.new ≡ length plane.old }
    ensures kept { KeepAsked method size width seam.now (length picture.now) (length plane.old) → fronts width (numbers_of size.width size.height plane.new) ≡ refreshed (wrap_of method) (width + 1) size.height (λ r c. cost_to from (costs_at method width size.height (Pictures·picture size picture.now) r c)) seam.now (fronts (width + 1) (numbers_of size.width size.height plane.old)) }
{
    if !is_sized(size, picture.len(), plane.len()) {
        return;
    }
    if size.width <= width || seam.len() != size.height {
        return;
    }
    close_numbers(plane, size.width, width + 1, seam);
    let carved = CarvedPicture {
        bytes: picture,
        size,
        width,
    };
    rows::refresh_rows(&carved, method, from, seam, plane);
}

// Whether a picture and a plane are as long as this size says.
fn is_sized(size: Size, picture: usize, plane: usize) -> bool
    ensures asked { result ≡ true → FillAsked size picture plane }
    ensures found { FillAsked size picture plane → result ≡ true }
{
    let Ok(allowed) = AllowedSize::new(size) else {
        return false;
    };
    picture == allowed.picture_bytes() && plane == 2 * allowed.pixels()
}
