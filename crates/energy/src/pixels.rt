// What coming to the pixels beside a seam costs, in a picture whose rows stand further apart than it is wide.
ghost use Rattle.std.specs.Prelude.{◌≡◌, ◌+◌, ◌-◌, ◌≤◌, ◌<◌, true, false, length};
ghost use Rattle.pictures.specs.Pictures.{pixel_bytes as Pictures·pixel_bytes, picture as Pictures·picture};
ghost use Rattle.energy.specs.Around.{around};
ghost use Rattle.energy.specs.Energy.{difference, costs_from, costs_at, one_cost, forward};
ghost use Rattle.energy.specs.Pixels.{cost_to, IsCarved};
ghost use Rattle.energy.specs.Inner.{pixel_from, CostAsked};

use crate::methods::{EnergyRule, Method};
use crate::{kernels, neighbour};
use pictures::{Kind, Size};

// The column of the row above that a path comes from: the same, the one to the left, or the one to the right.
#[derive(Clone, Copy, Debug, PartialEq, Eq)]
pub enum Step {
    Up,
    Left,
    Right,
}

// A picture that is carved where it stands: its rows stay as far apart as at this size, and its first `width` columns are left. Made once,
// so that of each of many pixels no more is judged than its place.
#[derive(Clone, Copy, Debug, PartialEq, Eq)]
pub struct CarvedPicture<'a> {
    pub bytes: &'a [u8],
    pub size: Size,
    pub width: usize,
    ghost carved: { IsCarved size width (length bytes.now) },
}

// What coming to the two pixels beside a seam costs: to the one before a column, and to the one at it.
#[derive(Clone, Copy, Debug, PartialEq, Eq)]
pub struct BesideCosts {
    pub before: u32,
    pub here: u32,
}

impl<'a> CarvedPicture<'a> {
    // What coming from one side to the pixels beside column c of row r costs. Where there is no such pixel, nothing is promised of it.
    #[inline(always)]
    pub fn costs_beside(&self, method: Method, from: Step, r: usize, c: usize) -> BesideCosts
        ensures before { r < self.now.size.height → 0 < c → c ≤ self.now.width → result.before ≡ cost_to from (costs_at method self.now.width self.now.size.height (Pictures·picture self.now.size self.now.bytes.now) r (c - 1)) }
        ensures here { r < self.now.size.height → c < self.now.width → result.here ≡ cost_to from (costs_at method self.now.width self.now.size.height (Pictures·picture self.now.size self.now.bytes.now) r c) }
    {
        if self.size.height <= r || self.width == 0 || self.width < c {
            return BesideCosts { before: 0, here: 0 };
        }
        let before = c.saturating_sub(1);
        let here = c.min(self.width - 1);
        match self.size.kind {
            Kind::Grey => self.two_costs::<1>(method, from, r, before, here),
            Kind::Rgb => self.two_costs::<3>(method, from, r, before, here),
        }
    }

    // The costs of two pixels of a row, where N is the number of channels, a constant to the compiler.
    #[inline(always)]
    fn two_costs<const N: usize>(
        &self,
        method: Method,
        from: Step,
        r: usize,
        before: usize,
        here: usize,
    ) -> BesideCosts
        requires channels { N ≡ Pictures·pixel_bytes self.now.size.kind }
        requires inside { (r < self.now.size.height) × (before < self.now.width) × (here < self.now.width) }
        ensures before { result.before ≡ cost_to from (costs_at method self.now.width self.now.size.height (Pictures·picture self.now.size self.now.bytes.now) r before) }
        ensures here { result.here ≡ cost_to from (costs_at method self.now.width self.now.size.height (Pictures·picture self.now.size self.now.bytes.now) r here) }
    {
        let picture = self.bytes;
        let size = self.size;
        let width = self.width;
        if method.energy.has_one_cost() {
            let rule = method.energy;
            BesideCosts {
                before: energy_at::<N>(picture, size, width, rule, r, before),
                here: energy_at::<N>(picture, size, width, rule, r, here),
            }
        } else {
            BesideCosts {
                before: step_cost::<N>(picture, size, width, from, r, before),
                here: step_cost::<N>(picture, size, width, from, r, here),
            }
        }
    }
}

// The energy of a pixel by a rule of one cost: how far the pixels that stand for the right and the lower neighbour are from it.
#[inline(always)]
fn energy_at<const N: usize>(
    picture: &[u8],
    size: Size,
    width: usize,
    rule: EnergyRule,
    r: usize,
    c: usize,
) -> u32
    requires rule { one_cost rule ≡ true }
    requires asked { CostAsked N size width r c (length picture.now) }
    ensures { result ≡ (costs_from rule (around false width size.height (Pictures·picture size picture.now) r c)).up }
{
    let stride = size.width * N;
    let row = r * stride;
    let it = row + c * N;
    let beside = row + neighbour(rule, c, width) * N;
    let lower = neighbour(rule, r, size.height) * stride + c * N;
    pixels_apart::<N>(picture, beside, it) + pixels_apart::<N>(picture, lower, it)
}

// What coming to a pixel costs by forward. A neighbour past the side edge is the pixel itself.
#[inline(always)]
fn step_cost<const N: usize>(
    picture: &[u8],
    size: Size,
    width: usize,
    from: Step,
    r: usize,
    c: usize,
) -> u32
    requires asked { CostAsked N size width r c (length picture.now) }
    ensures { result ≡ cost_to from (forward (around false width size.height (Pictures·picture size picture.now) r c)) }
{
    let stride = size.width * N;
    let row = r * stride;
    let left = row + c.saturating_sub(1) * N;
    let right = row + (c + 1).min(width - 1) * N;
    let across = pixels_apart::<N>(picture, right, left);
    if r == 0 {
        return across;
    }
    let above = row - stride + c * N;
    match from {
        Step::Up => across,
        Step::Left => across + pixels_apart::<N>(picture, above, left),
        Step::Right => across + pixels_apart::<N>(picture, above, right),
    }
}

// How far the pixel whose samples begin at place a is from the one whose samples begin at place b.
#[inline(always)]
fn pixels_apart<const N: usize>(picture: &[u8], a: usize, b: usize) -> u32
    requires few { N ≤ 3 }
    requires inside { (a + N ≤ length picture.now) × (b + N ≤ length picture.now) }
    ensures { (result ≡ difference (pixel_from N a picture.now) (pixel_from N b picture.now)) × (result ≤ 765) }
{
    kernels::difference(&picture[a..a + N], &picture[b..b + N])
}
