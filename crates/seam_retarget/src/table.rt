// What the cells of a table have in common, and where their pictures stand.
ghost use Rattle.std.specs.Prelude.{◌≡◌};
ghost use Rattle.pictures.specs.Pictures.{picture_bytes};

use energy::Method;
use pictures::AllowedSize;
use seam_rules::LARGEST_COUNT;

// The slots, one for each count of columns that may be removed.
pub(crate) const SLOTS: usize = LARGEST_COUNT + 1;

// Where the places for work stand, counted in pictures: after the slots, each of two pictures.
pub(crate) const VERTICAL: usize = SLOTS;

pub(crate) const HORIZONTAL: usize = SLOTS + 2;

// The table of a picture: its size, the method by which seams are found, and the bytes of a slot. Slot j of the work space, from
// j * whole on, holds the picture of cell j of a row: hosts lend one space for all. A cell is named by two counts, of rows and of
// columns: each of its two ways adds one to one of them, and a row has one for all its cells.
#[derive(Clone, Copy, Debug, PartialEq, Eq)]
pub(crate) struct Table {
    pub(crate) size: AllowedSize,
    pub(crate) method: Method,
    pub(crate) whole: usize,
    ghost whole_is: { whole ≡ picture_bytes size.size },
}
