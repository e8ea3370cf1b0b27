// One seam of a lent picture, for hosts: found or cut, without marks and with them. Size, method, axis and spaces are arguments
// of their own, here and in the other files: the C interface passes them so.
ghost use Rattle.exports.specs.Seams.{HostFindGiven, HostCutGiven, HostFindMarkedGiven, HostCutMarkedGiven};

use export_answers::{Answer, HostMethod, HostSize, Seaming, seaming_named};

// The seam along the axis, put into the front of seam from the top or the left; the value is its cost.
#[unsafe(no_mangle)]
pub extern "C" fn multisize_find(
    picture: &[u8],
    size: HostSize,
    method: HostMethod,
    axis: u8,
    seam: &mut [u16],
    work: &mut [u8],
) -> Answer
    ensures { HostFindGiven picture.now size method axis seam.old work.old result seam.new work.new }
{
    match seaming_named(size, method, axis) {
        Ok(Seaming { size, method, axis }) => Answer::from(seam_cut::find(
            picture, size, method, axis, seam, work,
        )),
        Err(why) => Answer::from(Err(why)),
    }
}

// Cuts the seam along the axis out of the picture and gives it as multisize_find does. The rows then lie packed at the
// front of the picture and the freed bytes are 0.
#[unsafe(no_mangle)]
pub extern "C" fn multisize_cut(
    picture: &mut [u8],
    size: HostSize,
    method: HostMethod,
    axis: u8,
    seam: &mut [u16],
    work: &mut [u8],
) -> Answer
    ensures { HostCutGiven picture.old size method axis seam.old work.old result picture.new seam.new work.new }
{
    match seaming_named(size, method, axis) {
        Ok(Seaming { size, method, axis }) => Answer::from(seam_cut::cut(
            picture, size, method, axis, seam, work,
        )),
        Err(why) => Answer::from(Err(why)),
    }
}

// The seam along the axis by the marks, one byte a pixel: 0 plain, 1 protected, 2 to be removed.
#[unsafe(no_mangle)]
pub extern "C" fn multisize_find_marked(
    picture: &[u8],
    marks: &[u8],
    size: HostSize,
    method: HostMethod,
    axis: u8,
    seam: &mut [u16],
    work: &mut [u8],
) -> Answer
    ensures { HostFindMarkedGiven picture.now marks.now size method axis seam.old work.old result seam.new work.new }
{
    match seaming_named(size, method, axis) {
        Ok(Seaming { size, method, axis }) => {
            let found = seam_cut_marked::find_marked(
                picture, marks, size, method, axis, seam, work,
            );
            Answer::from(found)
        }
        Err(why) => Answer::from(Err(why)),
    }
}

// Cuts that seam out of the picture and the marks and gives it as multisize_find_marked does.
#[unsafe(no_mangle)]
pub extern "C" fn multisize_cut_marked(
    picture: &mut [u8],
    marks: &mut [u8],
    size: HostSize,
    method: HostMethod,
    axis: u8,
    seam: &mut [u16],
    work: &mut [u8],
) -> Answer
    ensures { HostCutMarkedGiven picture.old marks.old size method axis seam.old work.old result picture.new marks.new seam.new work.new }
{
    match seaming_named(size, method, axis) {
        Ok(Seaming { size, method, axis }) => {
            let cut = seam_cut_marked::cut_marked(picture, marks, size, method, axis, seam, work);
            Answer::from(cut)
        }
        Err(why) => Answer::from(Err(why)),
    }
}
