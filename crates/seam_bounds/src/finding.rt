// Whether a seam can be looked for: the size of the picture, and the spaces lent.
ghost use Rattle.std.specs.Prelude.{◌≡◌, [], ◌∷◌, ◌++◌, true, false, ◌+◌, ◌*◌, ◌≤◌, ltb, IfOk};
ghost use Rattle.pictures.specs.Refusals.{◌when◌, given, refusal};
ghost use Rattle.pictures.specs.Pictures.{side_rules, picture_bytes, pixels};
ghost use Rattle.seam_bounds.specs.Spaces.{find_space_rules};

use pictures::{AllowedSize, Refusal, Size};

// The size, where the seam of a picture of this size can be found in a space of `space` bytes and put into a space of `seam`
// columns; or which of 2, 3 and 8 refuses it.
pub fn judge_find_in(size: Size, space: usize, seam: usize) -> Result<AllowedSize, Refusal>
    ensures number { given result ≡ refusal (find_space_rules size false space seam) }
    ensures same { IfOk result (λ allowed. allowed.size ≡ size) }
{
    judge_with::<1>(size, space, seam)
}

// The same with the picture's marks.
pub fn judge_find_marked_in(size: Size, space: usize, seam: usize) -> Result<AllowedSize, Refusal>
    ensures number { given result ≡ refusal (find_space_rules size true space seam) }
    ensures same { IfOk result (λ allowed. allowed.size ≡ size) }
{
    judge_with::<2>(size, space, seam)
}

// The same with N bytes for each pixel after the picture: one to work in, and with marks one more.
fn judge_with<const N: usize>(size: Size, space: usize, seam: usize) -> Result<AllowedSize, Refusal>
    requires { N ≤ 2 }
    ensures number { given result ≡ refusal (side_rules size ++ (8 when ltb seam size.height ∷ 8 when ltb space (picture_bytes size + pixels size * N) ∷ [])) }
    ensures same { IfOk result (λ allowed. allowed.size ≡ size) }
{
    let allowed = AllowedSize::new(size)?;
    if seam < size.height || space < allowed.picture_bytes() + allowed.pixels() * N {
        return Err(Refusal::Space);
    }
    Ok(allowed)
}
