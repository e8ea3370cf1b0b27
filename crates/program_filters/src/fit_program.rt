// What the program `fit` does: from a width and a file to the picture that the file shows.
ghost use Rattle.std.specs.Prelude.{◌≤◌, length};
ghost use Rattle.text_read.specs.Answers.{Told, read};
ghost use Rattle.program_theory.specs.Programs.{width_get, picture_answer, fit_rules, fit as Programs·fit};
ghost use Rattle.program_netpbm.specs.Outputs.{Wrote, output_space};
ghost use Rattle.program_netpbm.specs.Inner.{Answered};
ghost use Rattle.program_filters.specs.Inner.{DrawNeeded, PictureAnswered};

use pictures::{Refusal, WORK_A_PIXEL, pixel_bytes};
use program_netpbm::OUTPUT_SPACE;
use program_rules::HELD_PIXELS;
use text_read::Cursor;

// What `fit` writes for an input: the picture that the file shows at the width, or a refusal. What it shares with the other program is
// `finish`; each has a promise of its own.
pub fn fit(input: &[u8], out: &mut [u8; OUTPUT_SPACE]) -> usize
    ensures { Wrote (Programs·fit input.now) out.old result out.new }
{
    let answer = draw(input, out);
    program_netpbm::finish(answer, out)
}

// The width line at the front of an input.
fn width_line(input: &[u8]) -> Option<(usize, Cursor)>
    ensures { Told width_get input.now 0 (read result) }
{
    program_netpbm::last_number(input, Cursor { at: 0 })
}

// The picture that the file in the input shows at the width in its first line. Here and below the output is a slice: tried
// as the array that a program lends, the bounds of what is printed into it stayed open.
fn draw(input: &[u8], out: &mut [u8]) -> Result<usize, Refusal>
    requires { output_space ≤ length out.old }
    ensures { Answered (fit_rules input.now) (picture_answer (width_get input.now)) out.old result out.new }
{
    program_rules::judge_input(input.len())?;
    let (width, c) = width_line(input).ok_or(Refusal::Form)?;
    draw_file(&input[c.at..], width, out)
}

// The picture that a file shows at a width, in a space that is as long as the most pixels of the file's kind.
fn draw_file(file: &[u8], width: usize, out: &mut [u8]) -> Result<usize, Refusal>
    requires { output_space ≤ length out.old }
    ensures { PictureAnswered file.now width out.old result out.new }
{
    let start = Cursor { at: 0 };
    let (head, _) = start.header(file).ok_or(Refusal::Form)?;
    let room = HELD_PIXELS * pixel_bytes(head.size.kind);
    let mut picture = [0u8; 3 * HELD_PIXELS];
    draw_in(file, width, &mut picture[..room], out)
}

// The same. Both spaces are just long enough for the most pixels, so showing refuses more by 8, read or written.
fn draw_in(file: &[u8], width: usize, picture: &mut [u8], out: &mut [u8]) -> Result<usize, Refusal>
    requires { DrawNeeded file.now picture.old out.old }
    ensures { PictureAnswered file.now width out.old result out.new }
{
    let mut work = [0u8; WORK_A_PIXEL * HELD_PIXELS];
    let size = file_read::show(file, width, picture, &mut work)?;
    let bytes = size.height * (size.width * pixel_bytes(size.kind));
    let end = program_netpbm::print_picture(out, size, &picture[..bytes]).unwrap();
    Ok(end)
}
