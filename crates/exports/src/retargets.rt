// Rows and columns removed together, for hosts.
ghost use Rattle.exports.specs.Retargets.{HostRetargetGiven};

use export_answers::{Answer, Carving, HostMethod, HostSize, carving_named, counts_named};

// The picture with `rows` rows and `columns` columns less, put into the front of out; the value is the total of its seams.
#[unsafe(no_mangle)]
pub extern "C" fn multisize_retarget(
    picture: &[u8],
    size: HostSize,
    method: HostMethod,
    rows: usize,
    columns: usize,
    out: &mut [u8],
    work: &mut [u8],
) -> Answer
    ensures { HostRetargetGiven picture.now size method rows columns out.old work.old result out.new work.new }
{
    let counts = counts_named(rows, columns);
    match carving_named(size, method) {
        Ok(Carving { size, method }) => Answer::from(seam_retarget::retarget(
            picture,
            size,
            method,
            counts.rows,
            counts.columns,
            out,
            work,
        )),
        Err(why) => Answer::from(Err(why)),
    }
}
