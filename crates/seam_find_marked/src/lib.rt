// Finding the seam of a picture with marks that stands at the front of a lent space.
#![tactic(auto)]

mod weights;

ghost use Rattle.seam_find_marked.specs.Finding.{FindMarkedInGiven};

use energy::Method;
use pictures::{Refusal, Size};
use weights::Weights;

// The vertical seam of the picture at the front of the space by the marks after it, one byte a pixel: 1 protected, 2 to be
// removed, any other number plain. It is put into the front of seam from the top row. The rest of the space is for work: a
// byte for each pixel is cleared after the marks. Refused by 2, 3 and 8, and by 12 where no seam is allowed.
pub fn find_marked_in(
    space: &mut [u8],
    size: Size,
    method: Method,
    seam: &mut [u16],
) -> Result<u64, Refusal>
    ensures { FindMarkedInGiven space.old size method seam.old result space.new seam.new }
{
    seam_find::find_by::<Weights>(space, size, method, seam)
}
