// Multi-size files, for hosts.
ghost use Rattle.export_answers.specs.Answers.{reply_of};
ghost use Rattle.exports.specs.Files.{HostBuildGiven, HostCheckGiven, HostReadGiven, HostShowGiven, HostRowAtGiven};

use export_answers::{
    Answer, Carving, FileAnswer, HostMethod, HostSize, SizeAnswer, carving_named, head_named,
};
use pictures::{Refusal, Size};

// The file of a picture, put into the front of out; the value is its length.
#[unsafe(no_mangle)]
pub extern "C" fn multisize_build(
    picture: &[u8],
    size: HostSize,
    method: HostMethod,
    depth: usize,
    growth: usize,
    out: &mut [u8],
    work: &mut [u8],
) -> Answer
    ensures { HostBuildGiven picture.now size method depth growth out.old work.old result out.new work.new }
{
    match carving_named(size, method) {
        Ok(Carving { size, method }) => {
            let head = head_named(size, method, depth, growth);
            let built = file_build::build(picture, head, out, work);
            Answer::from(built.map(|length| length as u64))
        }
        Err(why) => Answer::from(Err(why)),
    }
}

// Checks a file; gives its size, method and range.
#[unsafe(no_mangle)]
pub extern "C" fn multisize_check(file: &[u8], work: &mut [u8]) -> FileAnswer
    ensures { HostCheckGiven file.now work.old result work.new }
{
    FileAnswer::from(file_read::check(file, work))
}

// The picture of a file put into the front of one space, its map into the front of another; gives its size, method and range.
#[unsafe(no_mangle)]
pub extern "C" fn multisize_read(
    file: &[u8],
    picture: &mut [u8],
    map: &mut [u16],
    work: &mut [u8],
) -> FileAnswer
    ensures { HostReadGiven file.now picture.old map.old work.old result picture.new map.new work.new }
{
    FileAnswer::from(file_read::read(file, picture, map, work))
}

// What a file shows at the wanted width, put into the front of out; gives its size.
#[unsafe(no_mangle)]
pub extern "C" fn multisize_show(
    file: &[u8],
    wanted: usize,
    out: &mut [u8],
    work: &mut [u8],
) -> SizeAnswer
    ensures { HostShowGiven file.now wanted out.old work.old result out.new work.new }
{
    SizeAnswer::from(file_read::show(file, wanted, out, work))
}

// A row of samples and its row of the map, shown at the wanted width and put into the front of out; the value is how many
// bytes are shown. The row has as many pixels as there are numbers, and may have any number of them.
#[unsafe(no_mangle)]
pub extern "C" fn multisize_row_at(
    samples: &[u8],
    kind: u8,
    numbers: &[u16],
    wanted: usize,
    out: &mut [u8],
) -> Answer
    ensures { HostRowAtGiven samples.now kind numbers.now wanted out.old result out.new }
{
    Answer::from(put_row(samples, kind, numbers, wanted, out))
}

fn put_row(
    samples: &[u8],
    kind: u8,
    numbers: &[u16],
    wanted: usize,
    out: &mut [u8],
) -> Result<u64, Refusal>
    ensures { HostRowAtGiven samples.now kind numbers.now wanted out.old (reply_of result) out.new }
{
    let named = Size::try_from(HostSize {
        width: numbers.len(),
        height: 1,
        kind,
    })?;
    // no method joins the last column to the first yet
    map_show::row_at(named.kind, false, samples, numbers, wanted, out)?;
    let shown = map_show::pixels_at(numbers, wanted) * pictures::pixel_bytes(named.kind);
    Ok(shown as u64)
}
