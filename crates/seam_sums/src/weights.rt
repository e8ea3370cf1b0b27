// What coming to a pixel costs and its mark in one number, and what the least sum of such numbers means.
ghost use Rattle.std.specs.Prelude.{◌≡◌, ◌<◌};
ghost use Rattle.seam_sums.specs.Weights.{kept, weight_of, FoundByGiven};

use pictures::Refusal;

// What coming to a pixel costs and its mark in one number, or a sum of such numbers.
#[derive(Clone, Copy)]
pub struct Weight(pub u32);

// What a pixel adds that is kept, that is not marked 2: more than any path costs.
pub const KEPT: u32 = 1 << 20;

// What a protected pixel adds: more than any path weighs that has none.
pub const PROTECTED: u32 = 1 << 30;

// The weight of a pixel: what coming to it costs, with KEPT if it isn't marked 2, and PROTECTED if it is marked 1. Nothing is promised of a
// cost that no pixel has.
pub fn pixel_weight(cost: u32, mark: u8) -> Weight
    ensures { cost < kept → result.0 ≡ weight_of cost mark }
{
    let added = match mark {
        1 => KEPT + PROTECTED,
        2 => 0,
        _ => KEPT,
    };
    Weight(cost.wrapping_add(added))
}

// What the least weight of a path means: a seam and its cost, or 12 where the path has a protected pixel, since then every
// path has one.
pub fn found_by(weight: Weight) -> Result<u64, Refusal>
    ensures { FoundByGiven weight.0 result }
{
    if PROTECTED <= weight.0 {
        return Err(Refusal::AllProtected);
    }
    Ok(u64::from(weight.0 % KEPT))
}
