// How much the programs read and write: the most bytes and pixels, and what is refused for being more. An input read.
#![tactic(auto)]

pub mod inputs;

ghost use Rattle.std.specs.Prelude.{◌≡◌};
ghost use Rattle.pictures.specs.Refusals.{given, refusal};
ghost use Rattle.program_rules.specs.Limits.{length_rules, held_rules};

pub use inputs::read_full;
use pictures::{Refusal, Size};

// The most bytes that a program reads.
pub const MOST_INPUT: usize = 65536;

// The most pixels of a picture that a program reads or writes.
pub const HELD_PIXELS: usize = 1024;

// Whether an input of this many bytes is read, or refused by 8.
pub fn judge_input(bytes: usize) -> Result<(), Refusal>
    ensures { given result ≡ refusal (length_rules bytes) }
{
    if MOST_INPUT < bytes {
        return Err(Refusal::Space);
    }
    Ok(())
}

// Whether a picture of this size is held that comes in this many bytes, or which of 2, 3, 4 and 8 refuses it.
pub fn judge_held(size: Size, bytes: usize) -> Result<(), Refusal>
    ensures { given result ≡ refusal (held_rules size bytes) }
{
    pictures::judge_picture(size, bytes)?;
    if HELD_PIXELS < size.height * size.width {
        return Err(Refusal::Space);
    }
    Ok(())
}
