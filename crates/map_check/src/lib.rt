// A map recorded in a work space, judged for the picture at its front.
#![tactic(auto)]

mod numbers;
mod recorded;
mod seams;

ghost use Rattle.std.specs.Prelude.{◌≡◌, length};
ghost use Rattle.pictures.specs.Refusals.{given, refusal};
ghost use Rattle.pictures.specs.Pictures.{picture_in};
ghost use Rattle.map_check.specs.Checking.{recorded_in, recorded_rules, JudgeInGiven};
ghost use Rattle.map_check.specs.Inner.Judging.{JudgeNeeded};

use energy::Method;
use map_rules::allowed;
use pictures::{AllowedSize, Refusal, Size};
use recorded::RecordedMap;

// Judges the map recorded in the work space for the picture at its front. In the space stand, one after the other: the picture and
// what building its map takes, 30 bytes for each pixel, and the recorded map, two bytes a number, the low byte first. Refused by 2, 3,
// 6 and 8; then by 9, 10 and 11. The space is all 0 after success and after 9, 10 and 11, else as it was.
pub fn judge_in(space: &mut [u8], size: Size, method: Method, depth: usize) -> Result<(), Refusal>
    ensures { JudgeInGiven space.old size method depth result space.new }
{
    let allowed = map_rules::judge_map_space(size, depth, space.len())?;
    let answer = judge_rows(space, allowed, method, depth);
    pictures::clear(space);
    answer
}

// 9 where a row isn't a numbering; else the map is built before the recorded one, which is left as it was, and they are compared.
fn judge_rows(
    space: &mut [u8],
    allowed: AllowedSize,
    method: Method,
    depth: usize,
) -> Result<(), Refusal>
    requires { JudgeNeeded allowed.size depth (length space.old) }
    ensures { given result ≡ refusal (recorded_rules allowed.size method depth (picture_in allowed.size space.old) (recorded_in allowed.size space.old)) }
{
    if !RecordedMap::new(space, allowed, depth).is_numbered() {
        return Err(Refusal::MapRow);
    }
    map_build::map_in(space, allowed.size, method, depth).unwrap();
    // shared whole, so that both maps can be lent from it
    let space: &[u8] = space;
    let built = &space[allowed::map_at(allowed)..allowed::recorded_at(allowed)];
    RecordedMap::new(space, allowed, depth).judge_beside(built)
}
