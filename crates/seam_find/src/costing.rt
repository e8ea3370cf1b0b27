// By which costs the cheapest path through a picture is found.
ghost use Rattle.std.specs.Prelude.{◌≡◌, ◌≤◌, ◌+◌, ◌*◌, ℕ, Bool, false, List, Result, Ok, map, length, IfOk};
ghost use Rattle.pictures.specs.declared.sizes.Size.{Size};
ghost use Rattle.pictures.specs.declared.refusals.Refusal.{Refusal};
ghost use Rattle.pictures.specs.Pictures.{picture_bytes};
ghost use Rattle.pictures.specs.Refusals.{given, refusal};
ghost use Rattle.energy.specs.declared.methods.Method.{Method};
ghost use Rattle.energy.specs.Bounds.{most_energy};
ghost use Rattle.seam_theory.specs.Sums.{CostRows};
ghost use Rattle.seam_bounds.specs.Spaces.{find_space_rules};
ghost use Rattle.seam_sums.specs.Fences.{fence32};
ghost use Rattle.seam_find.specs.Costing.{CostingLaws, LeastTold, RowAsked, thirds, plain_costs};

use energy::Method;
use pictures::{AllowedSize, Refusal, Size};
use seam_sums::Number;

// What finding needs to know of the costs of a picture at the front of a space.
pub trait Costing {
    // What costs and their sums are kept in.
    type Sum: Number;

    // Whether the picture's marks stand after it.
    ghost marked: { Bool };

    // The bytes at the front of the space that the costs are read from.
    ghost front: { Size → ℕ };

    // The costs of a row, from these bytes.
    ghost costs: { Size → Method → List ℕ → ℕ → CostRows };

    // No pixel costs more.
    ghost dearest: { ℕ };

    // A number larger than every sum.
    ghost fence: { ℕ };

    // What the least sum of the last row means.
    ghost means: { ℕ → Result ℕ Refusal → Type 0 };

    // The size, where a seam can be found in a space of `space` bytes and put into one of `seam` columns.
    fn judge(size: Size, space: usize, seam: usize) -> Result<AllowedSize, Refusal>
        ensures number { given result ≡ refusal (find_space_rules size marked space seam) }
        ensures same { IfOk result (λ allowed. allowed.size ≡ size) };

    // How many these bytes are; and what holds of the costs.
    fn front_bytes(allowed: AllowedSize) -> usize
        ensures bytes { result ≡ front allowed.size }
        ensures laws { CostingLaws marked front costs dearest fence Self.Sum.most Self.Sum.fence };

    // The costs of row i, from these bytes, where a path comes from straight above. The row of energies is room to work in. Where there
    // is no such row, or where a space isn't as long as it, nothing is promised.
    fn cost_row(
        bytes: &[u8],
        allowed: AllowedSize,
        method: Method,
        i: usize,
        energies: &mut [u32],
        cost: &mut [Self::Sum],
    )
        ensures { RowAsked (front allowed.size) allowed.size i allowed.size.width (length bytes.now) (length energies.old) (length cost.old) → map Self.Sum.value cost.new ≡ (costs allowed.size method bytes.now i).up };

    // All its costs: of coming from the left, from straight above, from the right, one row after the other, in spaces as long as three
    // rows.
    fn step_rows(
        bytes: &[u8],
        allowed: AllowedSize,
        method: Method,
        i: usize,
        energies: &mut [u32],
        steps: &mut [Self::Sum],
    )
        ensures { RowAsked (front allowed.size) allowed.size i (3 * allowed.size.width) (length bytes.now) (length energies.old) (length steps.old) → thirds allowed.size.width (map Self.Sum.value steps.new) ≡ costs allowed.size method bytes.now i };

    // From the least sum, as it is kept.
    fn found(least: Self::Sum) -> Result<u64, Refusal>
        ensures { LeastTold fence Self.Sum.most means (Self.Sum.value least) result };
}

// What the pixels of a picture without marks cost, by a method.
pub struct Energies;

impl Costing for Energies {
    type Sum = u32;

    ghost marked = { false };

    ghost front = { picture_bytes };

    ghost costs = { plain_costs };

    ghost dearest = { most_energy };

    ghost fence = { fence32 };

    ghost means = { λ least answer. answer ≡ Ok least };

    fn judge(size: Size, space: usize, seam: usize) -> Result<AllowedSize, Refusal> {
        seam_bounds::judge_find_in(size, space, seam)
    }

    fn front_bytes(allowed: AllowedSize) -> usize {
        allowed.picture_bytes()
    }

    fn cost_row(
        bytes: &[u8],
        allowed: AllowedSize,
        method: Method,
        i: usize,
        // Not needed here: room for some costs only would take one trait more, as an array's length can't be the trait's to say.
        _energies: &mut [u32],
        cost: &mut [u32],
    ) {
        // Refused only where nothing is promised.
        let _ = energy::energies(bytes, allowed.size, method, i, cost);
    }

    fn step_rows(
        bytes: &[u8],
        allowed: AllowedSize,
        method: Method,
        i: usize,
        _energies: &mut [u32],
        steps: &mut [u32],
    ) {
        let width = allowed.size.width;
        // Where nothing is promised, nothing is done.
        if steps.len() != 3 * width {
            return;
        }
        let (left, rest) = steps.split_at_mut(width);
        let (up, right) = rest.split_at_mut(width);
        let _ = energy::step_costs(bytes, allowed.size, method, i, left, up, right);
    }

    fn found(least: u32) -> Result<u64, Refusal> {
        Ok(u64::from(least))
    }
}
