// What hosts in C and Rust link: every operation over numbers, structs of numbers and slices, with no requires.
// A refusal of what is named is passed on by a match: `?` would ask for an inner function of as many arguments at each, as copy_row
// and put_row are, which have more than one refusal to pass on. Through `and_then`, of a closure that holds the spaces, the
// promise wasn't proved.
#![tactic(auto, using(crate::proofs::Unknown::size_unknown, crate::proofs::Unknown::carving_unknown, crate::proofs::Unknown::seaming_unknown))]

mod multifiles;
mod objects;
mod retargets;
mod seams;

ghost use Rattle.export_answers.specs.Answers.{reply_of};
ghost use Rattle.exports.specs.Hosts.{HostEnergiesGiven, HostStepCostsGiven, HostRowGiven};

use export_answers::{Answer, Carving, HostMethod, HostSize, carving_named, judge_row};
use pictures::{Refusal, Size};

// The energies of row r, put into the front of out; gives the number that is refused by, or 0.
#[unsafe(no_mangle)]
pub extern "C" fn multisize_energies(
    picture: &[u8],
    size: HostSize,
    method: HostMethod,
    r: usize,
    out: &mut [u32],
) -> u64
    ensures { HostEnergiesGiven picture.now size method r out.old result out.new }
{
    match carving_named(size, method) {
        Ok(Carving { size, method }) => {
            pictures::given(energy::energies(picture, size, method, r, out))
        }
        Err(why) => pictures::number(why),
    }
}

// What coming to each pixel of row r costs, put into the fronts of three spaces: from the column to its left in the row above, from
// straight above, from the column to its right; gives the number that is refused by, or 0.
#[unsafe(no_mangle)]
pub extern "C" fn multisize_step_costs(
    picture: &[u8],
    size: HostSize,
    method: HostMethod,
    r: usize,
    left: &mut [u32],
    up: &mut [u32],
    right: &mut [u32],
) -> u64
    ensures { HostStepCostsGiven picture.now size method r left.old up.old right.old result left.new up.new right.new }
{
    match carving_named(size, method) {
        Ok(Carving { size, method }) => pictures::given(energy::step_costs(
            picture, size, method, r, left, up, right,
        )),
        Err(why) => pictures::number(why),
    }
}

// Row r copied to the front of out; the value is its length.
#[unsafe(no_mangle)]
pub extern "C" fn multisize_row(picture: &[u8], size: HostSize, r: usize, out: &mut [u8]) -> Answer
    ensures { HostRowGiven picture.now size r out.old result out.new }
{
    Answer::from(copy_row(picture, size, r, out))
}

fn copy_row(picture: &[u8], size: HostSize, r: usize, out: &mut [u8]) -> Result<u64, Refusal>
    ensures { HostRowGiven picture.now size r out.old (reply_of result) out.new }
{
    let row = pictures::row(picture, Size::try_from(size)?, r);
    judge_row(row.len(), out.len())?;
    out[..row.len()].copy_from_slice(row);
    Ok(row.len() as u64)
}
