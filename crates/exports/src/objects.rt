// Objects removed by seams with marks, for hosts.
ghost use Rattle.exports.specs.Objects.{HostRemoveGiven};

use export_answers::{Carving, Ended, HostMethod, HostSize, carving_named};

// Cuts at most `budget` vertical seams by the marks, until none is 2. The picture and marks left lie packed at the front of
// each and the freed bytes are 0.
#[unsafe(no_mangle)]
pub extern "C" fn multisize_remove(
    picture: &mut [u8],
    marks: &mut [u8],
    size: HostSize,
    method: HostMethod,
    budget: u16,
    work: &mut [u8],
) -> Ended
    ensures { HostRemoveGiven picture.old marks.old size method budget work.old result picture.new marks.new work.new }
{
    match carving_named(size, method) {
        Ok(Carving { size, method }) => {
            Ended::from(seam_objects::remove(picture, marks, size, method, budget, work))
        }
        Err(why) => Ended::from(Err(why)),
    }
}
