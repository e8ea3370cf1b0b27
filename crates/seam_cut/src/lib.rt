// Seams of lent pictures: finding and cutting, along either axis. With marks they are other entry points, in seam_cut_marked: here
// no marks are lent, and neither 5 nor 12 refuses. The public operations take their buffers as hosts pass them, and the private
// ones pass them on once: of each buffer it is promised what it holds afterwards.
#![tactic(auto)]

ghost use Rattle.seam_cut.specs.Cutting.{FindGiven, CutGiven};
ghost use Rattle.seam_cut.specs.Inner.{FindNeeded, SeamAlongGiven, CutNeeded, CutAlongGiven};

use energy::Method;
use pictures::{Refusal, Size};
use seam_rules::Axis;

// The seam along the axis, put into the front of seam, and its cost. Refused by 2, 3, 4 and 8.
pub fn find(
    picture: &[u8],
    size: Size,
    method: Method,
    axis: Axis,
    seam: &mut [u16],
    work: &mut [u8],
) -> Result<u64, Refusal>
    ensures { FindGiven picture.now size method axis seam.old work.old result seam.new work.new }
{
    seam_rules::judge_find(size, axis, picture.len(), seam.len(), work.len())?;
    let cost = seam_along(picture, size, method, axis, seam, work);
    pictures::clear(work);
    Ok(cost)
}

// Cuts the seam along the axis out of the picture and gives it as `find` does. The rows then lie packed at the front of the
// picture and the freed bytes are 0. Refused by 2, 3, 4, 8 and 13.
pub fn cut(
    picture: &mut [u8],
    size: Size,
    method: Method,
    axis: Axis,
    seam: &mut [u16],
    work: &mut [u8],
) -> Result<u64, Refusal>
    ensures { CutGiven picture.old size method axis seam.old work.old result picture.new seam.new work.new }
{
    seam_rules::judge_find(size, axis, picture.len(), seam.len(), work.len())?;
    if seam_rules::takes_last(axis, size) {
        pictures::clear(work);
        return Err(Refusal::LastLine);
    }
    let cost = cut_along(picture, size, method, axis, seam, work);
    pictures::clear(work);
    Ok(cost)
}

// The seam where nothing is refused: found in the picture turned, which then stands at the front of the work space. Here and in
// `cut_along` nothing is cleared: each operation clears the work space once, at its end.
fn seam_along(
    picture: &[u8],
    size: Size,
    method: Method,
    axis: Axis,
    seam: &mut [u16],
    work: &mut [u8],
) -> u64
    requires { FindNeeded picture.now size axis seam.old work.old }
    ensures { SeamAlongGiven picture.now size method axis seam.old work.old result seam.new work.new }
{
    let turned = seam_rules::turned_size(axis, size);
    seam_turn::turn(picture, size, axis, work).unwrap();
    seam_find::find_in(work, turned, method, seam).unwrap()
}

// The cut where nothing is refused: of the picture as finding left it turned.
fn cut_along(
    picture: &mut [u8],
    size: Size,
    method: Method,
    axis: Axis,
    seam: &mut [u16],
    work: &mut [u8],
) -> u64
    requires { CutNeeded picture.old size axis seam.old work.old }
    ensures { CutAlongGiven picture.old size method axis seam.old work.old result picture.new seam.new }
{
    let turned = seam_rules::turned_size(axis, size);
    let cost = seam_along(picture, size, method, axis, seam, work);
    seam_turn::close(picture, size, axis, &seam[..turned.height], work).unwrap();
    cost
}
