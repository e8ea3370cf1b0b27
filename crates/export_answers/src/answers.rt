// Answers with one value. The number stands beside it: the C interface has it so.
ghost use Rattle.std.specs.Prelude.{◌≡◌};
ghost use Rattle.pictures.specs.Refusals.{given, refusal};
ghost use Rattle.export_answers.specs.Answers.{row_rules, reply_of};

use pictures::Refusal;

// An answer with a value: the number that is refused by and value 0, or number 0 and the value.
#[repr(C)]
#[derive(Clone, Copy, Debug, PartialEq, Eq)]
pub struct Answer {
    pub number: u64,
    pub value: u64,
}

// The value is a seam's cost, the total of the seams' costs, or a length.
impl From<Result<u64, Refusal>> for Answer {
    ghost from_gives = { λ answer told. told ≡ reply_of answer };

    fn from(answer: Result<u64, Refusal>) -> Answer {
        match answer {
            Ok(value) => Answer { number: 0, value },
            Err(why) => Answer {
                number: pictures::number(why),
                value: 0,
            },
        }
    }
}

// Whether 8 refuses a row of `length` bytes where the space for it has `space` bytes.
pub fn judge_row(length: usize, space: usize) -> Result<(), Refusal>
    ensures { given result ≡ refusal (row_rules length space) }
{
    if space < length {
        return Err(Refusal::Space);
    }
    Ok(())
}
