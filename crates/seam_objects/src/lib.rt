// Object removal: vertical seams are cut by the marks until no pixel is marked 2.
#![tactic(auto)]

ghost use Rattle.std.specs.Prelude.{◌≡◌, is_ok};
ghost use Rattle.seam_objects.specs.Objects.{some_two};
ghost use Rattle.seam_objects.specs.Removing.{RemoveGiven};
ghost use Rattle.seam_objects.specs.Inner.{SeamsNeeded, SeamsGiven, FrontNeeded, FrontCut};

use energy::Method;
use pictures::{LARGEST_SIDE, Refusal, Size};
use seam_rules::{Axis, Ending, Removal};

// Cuts at most `budget` seams by the marks. The picture and marks left lie packed at the front of each buffer and the freed
// bytes are 0. Refused by 2, 3, 4, 5 and 8.
pub fn remove(
    picture: &mut [u8],
    marks: &mut [u8],
    size: Size,
    method: Method,
    budget: u16,
    work: &mut [u8],
) -> Result<Removal, Refusal>
    ensures { RemoveGiven picture.old marks.old size method budget work.old result picture.new marks.new work.new }
{
    seam_cut_marked::judge_marked(
        picture.len(),
        marks,
        size,
        Axis::Vertical,
        LARGEST_SIDE,
        work.len(),
    )?;
    let removal = cut_seams(picture, marks, size, method, budget, work);
    pictures::clear(work);
    Ok(removal)
}

// The removal where nothing is refused. Its buffers are passed on as they are lent, here and in the next one: of each it is
// promised what it holds afterwards, which a struct of the three would say once more.
fn cut_seams(
    picture: &mut [u8],
    marks: &mut [u8],
    size: Size,
    method: Method,
    budget: u16,
    work: &mut [u8],
) -> Removal
    requires { SeamsNeeded size picture.old marks.old work.old }
    ensures { SeamsGiven picture.old marks.old size method budget result picture.new marks.new }
{
    let mut width = size.width;
    let mut count = 0u16;
    // each cut ends it or leaves a column less: after a `for` over the counts an answer would stand that no removal gives
    loop {
        let marked = has_two(&marks[..size.height * width]);
        if let Some(ended) = seam_rules::next_step(marked, width, count, budget) {
            return ended;
        }
        let left = Size { width, ..size };
        let Ok(_) = cut_front(picture, marks, left, method, work) else {
            return Removal {
                ending: Ending::Blocked,
                count,
            };
        };
        width -= 1;
        count += 1;
    }
}

// Cuts the seam out of the picture and the marks of this size that stand at the front of their buffers and gives its cost.
// Refused, and nothing is cut, where every seam meets a protected pixel. The work space is cleared by `remove`, after the last of
// them.
fn cut_front(
    picture: &mut [u8],
    marks: &mut [u8],
    size: Size,
    method: Method,
    work: &mut [u8],
) -> Result<u64, Refusal>
    requires { FrontNeeded size picture.old marks.old work.old }
    ensures { FrontCut size method picture.old marks.old (is_ok result) picture.new marks.new }
{
    let bytes = pictures::picture_bytes(size);
    let pixels = pictures::pixels(size);
    let room = pictures::work_bytes(size);
    let mut seam = [0u16; LARGEST_SIDE];
    seam_cut_marked::cut_uncleared(
        &mut picture[..bytes],
        &mut marks[..pixels],
        size,
        method,
        Axis::Vertical,
        &mut seam,
        &mut work[..room],
    )
}

// Whether some mark is 2. All marks are looked at, many at once.
fn has_two(marks: &[u8]) -> bool
    ensures { result ≡ some_two marks.now }
{
    let mut some = false;
    for mark in marks {
        some |= *mark == 2;
    }
    some
}
