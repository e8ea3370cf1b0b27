// What a program puts into its output: the length of an answer that stands there, or a refusal.
ghost use Rattle.pictures.specs.Refusals.{number_of};
ghost use Rattle.program_theory.specs.Programs.{refused_text};
ghost use Rattle.program_netpbm.specs.Outputs.{Finished};

use pictures::Refusal;
use text_lengths::Sink;
use text_print::{Mark, Text};

// The bytes of the space that a program's output is lent: enough for every output.
pub const OUTPUT_SPACE: usize = 32768;

// The line that says a refusal.
#[derive(Clone, Copy, Debug, PartialEq, Eq)]
pub struct RefusalLine {
    pub why: Refusal,
}

impl Text for RefusalLine {
    ghost text = { λ line. refused_text (number_of line.why) };

    fn put<S: Sink>(&self, sink: S) -> Option<S> {
        let word: &[u8] = b"(refused ";
        let number = pictures::number(self.why) as usize;
        (word, (number, Mark::Closed)).put(sink)
    }
}

// The length of the output: of the answer, or of the refusal, which is then printed.
pub fn finish(answer: Result<usize, Refusal>, out: &mut [u8; OUTPUT_SPACE]) -> usize
    ensures { Finished answer out.old result out.new }
{
    let why = match answer {
        Ok(length) => return length,
        Err(why) => why,
    };
    text_print::print(out, 0, &RefusalLine { why }).unwrap()
}
