// Seams by marks: finding and cutting, along either axis. Marks are turned and closed up as a grey picture is. Without marks they
// are other entry points, in seam_cut: a picture alone has no marks to lend and is refused by no 5 or 12, and what the two share is
// one function each already. The public operations take their buffers as hosts pass them, and the private ones pass them on once.
#![tactic(auto, unfolding(pictures::specs::Pictures::pixel_bytes))]

ghost use Rattle.std.specs.Prelude.{◌≡◌, ◌++◌, replicate};
ghost use Rattle.pictures.specs.Refusals.{given, refusal};
ghost use Rattle.pictures.specs.Pictures.{largest_side, size_rules};
ghost use Rattle.seam_bounds.specs.Moves.{outside};
ghost use Rattle.seam_rules.specs.Cuts.{room_rules};
ghost use Rattle.seam_cut_marked.specs.Marking.{mark_rules, FindMarkedGiven, CutMarkedGiven, CutUnclearedGiven};
ghost use Rattle.seam_cut_marked.specs.Inner.{JudgedNeeded, CutJudgedGiven, MarkedNeeded, MarkedAlongGiven, CutMarkedNeeded, CutAlongGiven, LastGiven};

use energy::Method;
use pictures::{LARGEST_SIDE, Refusal, Size};
use seam_rules::Axis;

// The seam along the axis by the marks, put into the front of seam, and its cost. Refused by 2, 3, 4, 5 and 8, and by 12
// where every seam meets a protected pixel.
pub fn find_marked(
    picture: &[u8],
    marks: &[u8],
    size: Size,
    method: Method,
    axis: Axis,
    seam: &mut [u16],
    work: &mut [u8],
) -> Result<u64, Refusal>
    ensures { FindMarkedGiven picture.now marks.now size method axis seam.old work.old result seam.new work.new }
{
    judge_marked(picture.len(), marks, size, axis, seam.len(), work.len())?;
    let found = marked_along(picture, marks, size, method, axis, seam, work);
    pictures::clear(work);
    found
}

// Cuts that seam out of the picture and the marks and gives it as `find_marked` does. What is left lies packed at the
// front of each and the freed bytes are 0. Refused by 2, 3, 4, 5, 8, 12 and 13.
pub fn cut_marked(
    picture: &mut [u8],
    marks: &mut [u8],
    size: Size,
    method: Method,
    axis: Axis,
    seam: &mut [u16],
    work: &mut [u8],
) -> Result<u64, Refusal>
    ensures { CutMarkedGiven picture.old marks.old size method axis seam.old work.old result picture.new marks.new seam.new work.new }
{
    judge_marked(picture.len(), marks, size, axis, seam.len(), work.len())?;
    let cut = cut_judged(picture, marks, size, method, axis, seam, work);
    pictures::clear(work);
    cut
}

// Cuts as `cut_marked` does, and leaves in the work space what it worked with: for one who cuts many seams and clears it once, at
// the end. Refused by 2, 3, 4, 5, 8, 12 and 13.
pub fn cut_uncleared(
    picture: &mut [u8],
    marks: &mut [u8],
    size: Size,
    method: Method,
    axis: Axis,
    seam: &mut [u16],
    work: &mut [u8],
) -> Result<u64, Refusal>
    ensures { CutUnclearedGiven picture.old marks.old size method axis seam.old work.old result picture.new marks.new seam.new work.new }
{
    judge_marked(picture.len(), marks, size, axis, seam.len(), work.len())?;
    cut_judged(picture, marks, size, method, axis, seam, work)
}

// Which of 2, 3, 4, 5 and 8 refuses these marks and buffers of these lengths, or none.
pub fn judge_marked(
    bytes: usize,
    marks: &[u8],
    size: Size,
    axis: Axis,
    seam: usize,
    work: usize,
) -> Result<(), Refusal>
    ensures { given result ≡ refusal (size_rules size bytes ++ (mark_rules size marks.now ++ room_rules axis size seam work)) }
{
    seam_rules::judge_marks(size, bytes, marks.len())?;
    if has_over_two(marks) {
        return Err(Refusal::Mark);
    }
    seam_rules::judge_find(size, axis, bytes, seam, work)
}

// Whether some mark is over 2.
fn has_over_two(marks: &[u8]) -> bool
    ensures { result ≡ outside 3 marks.now }
{
    let mut over = false;
    // `any` ends early, and then looks at one mark at a time: it takes 25 times as long where none is over 2
    for mark in marks {
        over |= !seam_rules::allows_mark(*mark);
    }
    over
}

// The seam by the marks, or 12, where no smaller number refuses it: found in picture and marks turned, which then stand at the
// front of the work space. Here and in the functions after it nothing is cleared: each operation clears the work space once, at its
// end.
fn marked_along(
    picture: &[u8],
    marks: &[u8],
    size: Size,
    method: Method,
    axis: Axis,
    seam: &mut [u16],
    work: &mut [u8],
) -> Result<u64, Refusal>
    requires { MarkedNeeded picture.now marks.now size axis seam.old work.old }
    ensures { MarkedAlongGiven picture.now marks.now size method axis seam.old work.old result seam.new work.new }
{
    let turned = seam_rules::turned_size(axis, size);
    let marked = seam_rules::grey(size);
    seam_turn::turn(picture, size, axis, work).unwrap();
    seam_turn::turn(marks, marked, axis, &mut work[picture.len()..]).unwrap();
    seam_find_marked::find_marked_in(work, turned, method, seam)
}

// 12 or 13 at the last column or row: the seam itself isn't given.
fn last_marked(
    picture: &[u8],
    marks: &[u8],
    size: Size,
    method: Method,
    axis: Axis,
    work: &mut [u8],
) -> Refusal
    requires { MarkedNeeded picture.now marks.now size axis (replicate largest_side 0) work.old }
    ensures { LastGiven picture.now marks.now size method axis work.old result work.new }
{
    let mut spare = [0u16; LARGEST_SIDE];
    match marked_along(picture, marks, size, method, axis, &mut spare, work) {
        Ok(_) => Refusal::LastLine,
        Err(why) => why,
    }
}

// The cut where only 12 and 13 may refuse it.
fn cut_judged(
    picture: &mut [u8],
    marks: &mut [u8],
    size: Size,
    method: Method,
    axis: Axis,
    seam: &mut [u16],
    work: &mut [u8],
) -> Result<u64, Refusal>
    requires { JudgedNeeded picture.old marks.old size axis seam.old work.old }
    ensures { CutJudgedGiven picture.old marks.old size method axis seam.old work.old result picture.new marks.new seam.new work.new }
{
    if seam_rules::takes_last(axis, size) {
        return Err(last_marked(picture, marks, size, method, axis, work));
    }
    cut_marked_along(picture, marks, size, method, axis, seam, work)
}

// The cut where only 12 may refuse it: of picture and marks as finding left them turned. The marks come first, and the picture then
// still stands before them.
fn cut_marked_along(
    picture: &mut [u8],
    marks: &mut [u8],
    size: Size,
    method: Method,
    axis: Axis,
    seam: &mut [u16],
    work: &mut [u8],
) -> Result<u64, Refusal>
    requires { CutMarkedNeeded picture.old marks.old size axis seam.old work.old }
    ensures { CutAlongGiven picture.old marks.old size method axis seam.old work.old result picture.new marks.new seam.new work.new }
{
    let turned = seam_rules::turned_size(axis, size);
    let marked = seam_rules::grey(size);
    let cost = marked_along(picture, marks, size, method, axis, seam, work)?;
    let turned_marks = &mut work[picture.len()..];
    seam_turn::close(marks, marked, axis, &seam[..turned.height], turned_marks).unwrap();
    seam_turn::close(picture, size, axis, &seam[..turned.height], work).unwrap();
    Ok(cost)
}
