// What the pixels of a row cost.
#![tactic(auto, unfolding(pictures::specs::Pictures::pixel_bytes))]

mod forward;
mod kernels;
pub mod methods;
pub mod pixels;

ghost use Rattle.grids.specs.Table.{table};
ghost use Rattle.energy.specs.Around.{around};
ghost use Rattle.energy.specs.Energy.{EnergiesGiven, StepCostsGiven, energies as Energy·energies, forward, one_cost};
ghost use Rattle.pictures.specs.Limits.{most_side};
ghost use Rattle.pictures.specs.Pictures.{picture as Pictures·picture};
ghost use Rattle.energy.specs.Inner.{RowNeeded, RowStepsNeeded, neighbour_of};
ghost use Rattle.std.specs.Prelude.{◌≡◌, ◌++◌, ◌-◌, ◌≤◌, ◌<◌, true, false, ◌||◌, eqb, length, drop};

pub use methods::{EnergyRule, Method, usual_method};
use pictures::{Refusal, Size, judge_picture, pixel_bytes};
pub use pixels::{BesideCosts, CarvedPicture, Step};

// The energies of row r, put into the first `width` places of out. By forward a pixel's energy is what coming to it from straight
// above costs. Refused by 2, 3 and 4 as every picture is, by 4 where
// there is no row r, and by 8 where out is shorter than the row.
pub fn energies(
    picture: &[u8],
    size: Size,
    method: Method,
    r: usize,
    out: &mut [u32],
) -> Result<(), Refusal>
    ensures { EnergiesGiven picture.now size method r out.old result out.new }
{
    judge_picture(size, picture.len())?;
    if size.height <= r {
        return Err(Refusal::Count);
    }
    if out.len() < size.width {
        return Err(Refusal::Space);
    }
    row_energies(picture, size, method, r, out);
    Ok(())
}

// What coming to each pixel of row r costs: from the column to its left in the row above, from straight above, from the column to
// its right. Each is put into the first `width` places of its space. Refused as energies are, by 8 where one of the spaces is
// shorter than the row.
pub fn step_costs(
    picture: &[u8],
    size: Size,
    method: Method,
    r: usize,
    left: &mut [u32],
    up: &mut [u32],
    right: &mut [u32],
) -> Result<(), Refusal>
    ensures { StepCostsGiven picture.now size method r left.old up.old right.old result left.new up.new right.new }
{
    judge_picture(size, picture.len())?;
    if size.height <= r {
        return Err(Refusal::Count);
    }
    let width = size.width;
    if left.len() < width || up.len() < width || right.len() < width {
        return Err(Refusal::Space);
    }
    let left = &mut left[..width];
    let up = &mut up[..width];
    let right = &mut right[..width];
    if is_alike(method.energy, r) {
        row_energies(picture, size, method, r, up);
        left.copy_from_slice(up);
        right.copy_from_slice(up);
    } else {
        row_steps(picture, size, r, left, up, right);
    }
    Ok(())
}

// Whether the costs of coming to a pixel of row r are the same from all sides.
fn is_alike(rule: EnergyRule, r: usize) -> bool
    ensures { result ≡ (one_cost rule || eqb r 0) }
{
    rule.has_one_cost() || r == 0
}

// The line, column or row, that stands for the one after line i of n: the next one; of the last, the one that the rule says.
fn neighbour(rule: EnergyRule, i: usize, n: usize) -> usize
    requires { (i < n) × (n ≤ most_side) }
    ensures { result ≡ neighbour_of rule i n }
{
    if i + 1 < n {
        return i + 1;
    }
    // the rule is a value, as hosts and files name it
    match rule {
        // The line before; of the first the line itself, from which it doesn't differ.
        EnergyRule::Edge => i.saturating_sub(1),
        // Always the line itself. By forward none is asked for: the arm is there for the match.
        EnergyRule::Flat | EnergyRule::Forward => i,
    }
}

// The energies of row r of a picture that is of its size.
fn row_energies(picture: &[u8], size: Size, method: Method, r: usize, out: &mut [u32])
    requires { RowNeeded picture.now size r (length out.old) }
    ensures { out.new ≡ Energy·energies method size.width size.height (Pictures·picture size picture.now) r ++ drop size.width out.old }
{
    if method.energy.has_one_cost() {
        row_between(picture, size, method, r, out);
    } else {
        let stride = size.width * pixel_bytes(size.kind);
        let at = r * stride;
        forward::across(size.kind, &picture[at..at + stride], &mut out[..size.width]);
    }
}

// The same by a rule of one cost.
fn row_between(picture: &[u8], size: Size, method: Method, r: usize, out: &mut [u32])
    requires rule { one_cost method.energy ≡ true }
    requires row { RowNeeded picture.now size r (length out.old) }
    ensures { out.new ≡ Energy·energies method size.width size.height (Pictures·picture size picture.now) r ++ drop size.width out.old }
{
    let width = size.width;
    let height = size.height;
    let kind = size.kind;
    let stride = width * pixel_bytes(kind);
    let at = r * stride;
    let rule = method.energy;
    let lower = neighbour(rule, r, height) * stride;
    let beside = neighbour(rule, width - 1, width);
    kernels::line_energies(
        kind,
        &picture[at..at + stride],
        &picture[lower..lower + stride],
        width,
        beside,
        out,
    );
}

// The costs of row r by forward, where there is a row above.
fn row_steps(
    picture: &[u8],
    size: Size,
    r: usize,
    left: &mut [u32],
    up: &mut [u32],
    right: &mut [u32],
)
    requires { RowStepsNeeded picture.now size r (length left.old) (length up.old) (length right.old) }
    ensures left { left.new ≡ table (λ c. (forward (around false size.width size.height (Pictures·picture size picture.now) r c)).left) size.width }
    ensures up { up.new ≡ table (λ c. (forward (around false size.width size.height (Pictures·picture size picture.now) r c)).up) size.width }
    ensures right { right.new ≡ table (λ c. (forward (around false size.width size.height (Pictures·picture size picture.now) r c)).right) size.width }
{
    let stride = size.width * pixel_bytes(size.kind);
    let at = r * stride;
    let above = at - stride;
    forward::steps(
        size.kind,
        &picture[at..at + stride],
        &picture[above..at],
        left,
        up,
        right,
    );
}
