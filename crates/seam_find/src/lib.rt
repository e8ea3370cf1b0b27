// Finding the seam of a picture that stands at the front of a lent space, by any costs, and by what a method says that its
// pixels cost.
#![tactic(auto)]

mod bottom;
pub mod costing;
mod down;
mod sums;
pub mod trace;

ghost use Rattle.seam_find.specs.ByCosts.{FindByGiven};
ghost use Rattle.seam_find.specs.Finding.{FindInGiven};

pub use costing::{Costing, Energies};
use energy::Method;
use pictures::{Refusal, Size};
pub use trace::trace_back;

// The vertical seam of the picture at the front of the space, put into the front of seam from the top row. The rest of the
// space is for work: a byte for each pixel is cleared after the picture. Refused by 2, 3 and 8.
pub fn find_in(
    space: &mut [u8],
    size: Size,
    method: Method,
    seam: &mut [u16],
) -> Result<u64, Refusal>
    ensures { FindInGiven space.old size method seam.old result space.new seam.new }
{
    find_by::<Energies>(space, size, method, seam)
}

// The same by any costs that are read from the front of the space. The space is lent whole, as hosts lend it: its parts are named by
// their places.
pub fn find_by<C: Costing>(
    space: &mut [u8],
    size: Size,
    method: Method,
    seam: &mut [u16],
) -> Result<u64, Refusal>
    ensures { FindByGiven C.marked (C.front size) C.fence (C.costs size method) C.means space.old size seam.old result space.new seam.new }
{
    let allowed = C::judge(size, space.len(), seam.len())?;
    let width = size.width;
    let height = size.height;
    let front = C::front_bytes(allowed);
    let last = front + (height - 1) * width;
    let end = front + height * width;
    let bottom = bottom::find_bottom::<C>(space, allowed, method);
    let found = C::found(bottom.sum);
    // No `?`, since the space is cleared after a refusal too.
    if found.is_ok() {
        trace_back(&space[front..last], width, height, bottom.column, seam);
    }
    pictures::clear(&mut space[front..end]);
    found
}
