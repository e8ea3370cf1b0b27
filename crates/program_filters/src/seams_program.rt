// What the program `seams` does: from a Netpbm picture to its file.
ghost use Rattle.std.specs.Prelude.{◌≤◌, length};
ghost use Rattle.program_theory.specs.Netpbm.{header_get};
ghost use Rattle.program_theory.specs.Programs.{file_answer, seams_rules, seams as Programs·seams};
ghost use Rattle.program_netpbm.specs.Outputs.{Wrote, output_space};
ghost use Rattle.program_netpbm.specs.Inner.{Answered};
ghost use Rattle.program_filters.specs.Inner.{FileAnswered};

use pictures::{Refusal, Size, WORK_A_PIXEL};
use program_netpbm::OUTPUT_SPACE;
use program_rules::HELD_PIXELS;
use text_theory::Head;

// What `seams` writes for an input: the file of the picture, with depth m - 1 and growth m/2, or a refusal.
pub fn seams(input: &[u8], out: &mut [u8; OUTPUT_SPACE]) -> usize
    ensures { Wrote (Programs·seams input.now) out.old result out.new }
{
    let answer = build(input, out);
    program_netpbm::finish(answer, out)
}

// The file of the picture in the input. Here and below the output is a slice, for the same reason as in fit_program.
fn build(input: &[u8], out: &mut [u8]) -> Result<usize, Refusal>
    requires { output_space ≤ length out.old }
    ensures { Answered (seams_rules input.now) (file_answer (header_get input.now)) out.old result out.new }
{
    program_rules::judge_input(input.len())?;
    let (size, c) = program_netpbm::read_header(input).ok_or(Refusal::Form)?;
    build_file(size, &input[c.at..], out)
}

// The file of a picture, with all widths that it can offer.
fn build_file(size: Size, samples: &[u8], out: &mut [u8]) -> Result<usize, Refusal>
    requires { output_space ≤ length out.old }
    ensures { FileAnswered size samples.now out.old result out.new }
{
    program_rules::judge_held(size, samples.len())?;
    let head = Head {
        size,
        method: energy::usual_method(),
        depth: size.width - 1,
        growth: size.width / 2,
    };
    let mut work = [0u8; WORK_A_PIXEL * HELD_PIXELS];
    file_build::build(samples, head, out, &mut work)
}
