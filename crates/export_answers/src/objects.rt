// How a removal ended, as numbers. The number stands beside the values: the C interface has it so.
ghost use Rattle.std.specs.Prelude.{◌≡◌};
ghost use Rattle.export_answers.specs.Objects.{ending_number, ended_of};

use pictures::Refusal;
use seam_rules::{Ending, Removal};

// How a removal ended: ending 1 is done, 2 narrow, 3 spent, 4 blocked, and the count is of the seams cut. Or the number that
// it is refused by, and ending and count 0.
#[repr(C)]
#[derive(Clone, Copy, Debug, PartialEq, Eq)]
pub struct Ended {
    pub number: u64,
    pub ending: u64,
    pub count: u64,
}

impl From<Result<Removal, Refusal>> for Ended {
    ghost from_gives = { λ answer told. told ≡ ended_of answer };

    fn from(answer: Result<Removal, Refusal>) -> Ended {
        match answer {
            Ok(removal) => Ended {
                number: 0,
                ending: ending_number(removal.ending),
                count: removal.count as u64,
            },
            Err(why) => Ended {
                number: pictures::number(why),
                ending: 0,
                count: 0,
            },
        }
    }
}

// By a match: the numbers are this interface's, not the ending's.
fn ending_number(ending: Ending) -> u64
    ensures { result ≡ ending_number ending }
{
    match ending {
        Ending::Done => 1,
        Ending::Narrow => 2,
        Ending::Spent => 3,
        Ending::Blocked => 4,
    }
}
