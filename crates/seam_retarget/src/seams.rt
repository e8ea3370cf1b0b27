// One seam of a picture that stands at a place of the work space: found, and cut.
ghost use Rattle.std.specs.Prelude.{◌≡◌, length};
ghost use Rattle.pictures.specs.Pictures.{picture_bytes, bytes};
ghost use Rattle.seam_bounds.specs.Inner.{PlacesApart};
ghost use Rattle.seam_moves.specs.Between.{put_at};
ghost use Rattle.seam_turn.specs.Axes.{turned};
ghost use Rattle.seam_retarget.specs.Inner.Seams.{picture_at, SeamNeeded, SeamGiven, CutNeeded, CutGiven, StepNeeded, StepGiven};

use energy::Method;
use pictures::{AllowedSize, LARGEST_SIDE};
use seam_close::close_up;
use seam_moves::{copy_between, exchange_between};
use seam_rules::{Axis, narrower, turned_size};

// Which seam: of a picture of this size, along this axis, as this method finds it. The picture is turned at the place `at` of the
// work space.
#[derive(Clone, Copy, Debug, PartialEq, Eq)]
pub(crate) struct Seam {
    pub(crate) size: AllowedSize,
    pub(crate) axis: Axis,
    pub(crate) method: Method,
    pub(crate) at: usize,
}

impl Seam {
    // Puts the seam of the picture at `from` into the front of seam and gives its cost. The picture then stands turned.
    pub(crate) fn find(self, work: &mut [u8], from: usize, seam: &mut [u16]) -> u64
        requires { SeamNeeded (length work.old) from self.size.size self.axis self.at (length seam.old) }
        ensures { SeamGiven work.old from self.size.size self.method self.axis self.at seam.old result work.new seam.new }
    {
        turn(work, from, self.size, self.axis, self.at);
        let over = turned_size(self.axis, self.size.size);
        seam_find::find_in(&mut work[self.at..], over, self.method, seam).unwrap()
    }

    // Puts the picture that stands turned, without the seam, at `to`.
    pub(crate) fn cut(self, work: &mut [u8], seam: &[u16], to: usize)
        requires { CutNeeded (length work.old) self.at self.size.size self.axis seam.now to }
        ensures { CutGiven work.old self.at self.size.size self.axis seam.now to work.new }
    {
        let over = turned_size(self.axis, self.size.size);
        let end = self.at + self.size.picture_bytes();
        close_up(&mut work[self.at..end], over, &seam[..over.height]).unwrap();
        let left = AllowedSize {
            size: narrower(over),
        };
        turn(work, self.at, left, self.axis, to);
    }

    // Puts the picture at `from`, without its seam, at `to`; gives the seam's cost.
    pub(crate) fn step(self, work: &mut [u8], from: usize, to: usize) -> u64
        requires { StepNeeded (length work.old) from self.size.size self.axis self.at to }
        ensures { StepGiven work.old from self.size.size self.method self.axis self.at to result work.new }
    {
        let mut seam = [0u16; LARGEST_SIDE];
        let cost = self.find(work, from, &mut seam);
        self.cut(work, &seam, to);
        cost
    }
}

// Puts the picture at `from`, turned, at `to`.
fn turn(work: &mut [u8], from: usize, size: AllowedSize, axis: Axis, to: usize)
    requires { PlacesApart (length work.old) from to (picture_bytes size.size) }
    ensures { work.new ≡ put_at to (picture_bytes size.size) (bytes size.size.kind (turned axis size.size.width (picture_at size.size from work.old))) work.old }
{
    // the axis is a value, as in the cells
    match axis {
        Axis::Vertical => copy_between(work, from, size.picture_bytes(), to).unwrap(),
        Axis::Horizontal => exchange_between(work, from, size.size, to).unwrap(),
    }
}
