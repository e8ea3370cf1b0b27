// A map recorded in bytes, two a number, the low byte first, with the size and the depth that it is judged by.
ghost use Rattle.std.specs.Prelude.{◌≡◌, length};
ghost use Rattle.pictures.specs.Refusals.{given};
ghost use Rattle.map_check.specs.Inner.Numbers.{MapNeeded, Numbered};
ghost use Rattle.map_check.specs.Inner.Judging.{JudgeNeeded, RecordedIs, beside_built};

use crate::numbers::has_same_numbers;
use map_rules::allowed;
use pictures::{AllowedSize, Refusal};

// By width and height, since a map has nothing of the kind of picture that a size has. A map that is printed is file_build's: it
// may be of any sides, and has no depth.
#[derive(Clone, Copy, Debug, PartialEq, Eq)]
pub(crate) struct RecordedMap<'a> {
    pub bytes: &'a [u8],
    pub width: usize,
    pub height: usize,
    pub depth: usize,
    ghost sized: { MapNeeded bytes.now width height depth },
}

impl<'a> RecordedMap<'a> {
    // The map recorded in a work space.
    pub(crate) fn new(space: &'a [u8], allowed: AllowedSize, depth: usize) -> Self
        requires { JudgeNeeded allowed.size depth (length space.now) }
        ensures { RecordedIs allowed.size depth space.now result.bytes.now result.width result.height result.depth }
    {
        let at = allowed::recorded_at(allowed);
        RecordedMap {
            bytes: &space[at..allowed.work_bytes()],
            width: allowed.size.width,
            height: allowed.size.height,
            depth,
        }
    }

    // Judged beside the map built for its picture: where they differ, 10 if a seam of it isn't connected, else 11.
    pub(crate) fn judge_beside(&self, built: &[u8]) -> Result<(), Refusal>
        requires long { length built.now ≡ length self.now.bytes.now }
        requires numbered { Numbered self.now.bytes.now self.now.width self.now.height self.now.depth }
        ensures { given result ≡ beside_built self.now.bytes.now built.now self.now.width self.now.height self.now.depth }
    {
        if has_same_numbers(self.bytes, built) {
            return Ok(());
        }
        if self.is_connected() {
            return Err(Refusal::OtherSeam);
        }
        Err(Refusal::BrokenSeam)
    }
}
