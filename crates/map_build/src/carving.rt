// Seams cut one after the other, with the costs of what is left kept from one to the next.
ghost use Rattle.std.specs.Prelude.{◌≡◌, ◌-◌, ◌*◌, ◌≤◌, ℕ, length};
ghost use Rattle.grids.specs.Table.{table};
ghost use Rattle.pictures.specs.Limits.{most_side};
ghost use Rattle.seam_planes.specs.Planes.{numbers_of};
ghost use Rattle.map_build.specs.Inner.Carving.{CarveNeeded, CarveGiven, ColumnsNeeded, StepNeeded, StepGiven, CostsKept};
ghost use Rattle.map_rules.specs.Spaces.{map_bytes};
ghost use Rattle.seam_keep.specs.Keeping.{KeepAsked};

use crate::numbering::number_rows;
use energy::{Method, Step};
use pictures::{AllowedSize, LARGEST_SIDE, Size};
use seam_find_kept::CostPlanes;

// Cuts `depth` seams of the picture at the front of the work space, and gives its map. In the space stand, one after the other, as long as
// seams are cut: the picture, its costs in three planes, the columns in which its pixels stood at first, and the sums of the seam that is
// looked for. What is left of the picture is packed at the front in the end.
pub(crate) fn carve(
    work: &mut [u8],
    map: &mut [u8],
    allowed: AllowedSize,
    method: Method,
    depth: usize,
)
    requires { CarveNeeded allowed.size depth (length work.old) (length map.old) }
    ensures { CarveGiven allowed.size method depth work.old work.new map.new }
{
    if depth == 0 {
        // no seam is looked for, so no costs are worked out
        pictures::clear(map);
        return;
    }
    let size = allowed.size;
    let plane = 2 * allowed.pixels();
    let (picture, rest) = work.split_at_mut(allowed.picture_bytes());
    let (up, rest) = rest.split_at_mut(plane);
    let (left, rest) = rest.split_at_mut(plane);
    let (right, rest) = rest.split_at_mut(plane);
    let (columns, sums) = rest.split_at_mut(plane);
    seam_keep::fill_costs(picture, size, method, up, left, right);
    fill_columns(columns, size.width, size.height);
    pictures::clear(map);
    let mut is_narrow = true;
    for t in 0..depth {
        let width = size.width - t;
        let number = (t + 1) as u16;
        is_narrow = next_seam(
            picture, up, left, right, columns, sums, map, size, width, method, number, is_narrow,
        );
    }
    seam_planes::pack_picture(picture, size, size.width - depth);
}

// Puts into each row the columns of the picture.
fn fill_columns(columns: &mut [u8], width: usize, height: usize)
    requires { ColumnsNeeded width height (length columns.old) }
    ensures long { length columns.new ≡ length columns.old }
    ensures all { numbers_of width height columns.new ≡ table (λ r. table (λ c. c) width) height }
{
    let mut space = [0u32; LARGEST_SIDE];
    let all = &mut space[..width];
    count(all);
    for r in 0..height {
        let at = r * (2 * width);
        seam_planes::put_numbers(all, &mut columns[at..at + 2 * width]);
    }
}

// 0, 1, 2 and so on.
fn count(out: &mut [u32])
    requires { length out.old ≤ most_side }
    ensures { out.new ≡ table (λ c. c) (length out.old) }
{
    for c in 0..out.len() {
        out[c] = c as u32;
    }
}

// Finds the seam by the costs that are kept, writes its number into the map, and closes up all that is kept of its pixels. Sums of 16 bits
// are tried where they were enough for the seam before; gives whether they were for this one.
fn next_seam(
    picture: &mut [u8],
    up: &mut [u8],
    left: &mut [u8],
    right: &mut [u8],
    columns: &mut [u8],
    sums: &mut [u8],
    map: &mut [u8],
    size: Size,
    width: usize,
    method: Method,
    number: u16,
    is_narrow: bool,
) -> bool
    requires { StepNeeded size method width number picture.old up.old left.old right.old columns.old (length sums.old) map.old }
    ensures { StepGiven size method width number picture.old up.old left.old right.old map.old picture.new up.new left.new right.new columns.new map.new }
{
    let mut space = [0u16; LARGEST_SIDE];
    let seam = &mut space[..size.height];
    let costs = CostPlanes { up, left, right };
    let is_enough = seam_find_kept::find_kept(costs, size, width, method, is_narrow, sums, seam);
    number_rows(map, columns, size.width, seam, number);
    seam_planes::close_numbers(columns, size.width, width, seam);
    seam_planes::close_picture(picture, size, width, seam);
    keep_all(picture, size, width - 1, method, seam, up, left, right);
    is_enough
}

// Keeps the costs of all sides that a path may come from.
fn keep_all(
    picture: &[u8],
    size: Size,
    width: usize,
    method: Method,
    seam: &[u16],
    up: &mut [u8],
    left: &mut [u8],
    right: &mut [u8],
)
    requires asked { KeepAsked method size width seam.now (length picture.now) (map_bytes size) }
    requires sized { (length up.old ≡ map_bytes size) × (length left.old ≡ map_bytes size) × (length right.old ≡ map_bytes size) }
    ensures { CostsKept method size width seam.now picture.now up.old left.old right.old up.new left.new right.new }
{
    seam_keep::keep_costs(picture, size, width, method, Step::Up, seam, up);
    if !method.energy.has_one_cost() {
        seam_keep::keep_costs(picture, size, width, method, Step::Left, seam, left);
        seam_keep::keep_costs(picture, size, width, method, Step::Right, seam, right);
    }
}
