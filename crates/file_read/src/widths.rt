// A file shown at a width.
ghost use Rattle.std.specs.Prelude.{◌*◌, ℕ, length};
ghost use Rattle.pictures.specs.Pictures.{pixel_bytes};
ghost use Rattle.text_theory.specs.Files.{parse};
ghost use Rattle.file_theory.specs.Shows.{shows, drawn_bytes};
ghost use Rattle.file_read.specs.Reading.{ShowGiven};
ghost use Rattle.file_read.specs.Inner.Opening.{maps_from};
ghost use Rattle.file_read.specs.Inner.Widths.{DrawNeeded, DrawGiven, Showing};

use crate::lines;
use crate::lines::Lines;
use crate::opening::Opened;
use pictures::{LARGEST_SIDE, Refusal, Size, pixel_bytes};
use text_read::Cursor;

// The picture that a file shows at the wanted width, put into the front of out, and its size. Refused by what checking
// refuses, by 7 where the width isn't offered, and by 8 where out is shorter than the picture.
pub fn show(file: &[u8], wanted: usize, out: &mut [u8], work: &mut [u8]) -> Result<Size, Refusal>
    ensures { ShowGiven file.now wanted out.old work.old result out.new work.new }
{
    let opened = Opened::new(file)?;
    file_rules::judge_wanted(opened.head, wanted, out.len(), work.len())?;
    opened.judge(work)?;
    draw(opened, wanted, out, work);
    Ok(Size {
        width: wanted,
        ..opened.head.size
    })
}

// Puts what an accepted file shows into the front of out. The picture stands in the work space meanwhile.
fn draw(file: Opened, wanted: usize, out: &mut [u8], work: &mut [u8])
    requires { DrawNeeded file.text.now file.head wanted (length out.old) (length work.old) }
    ensures { DrawGiven file.entry.text.now wanted out.old work.old out.new work.new }
{
    let maps = file.read_picture(work);
    let shown = ShownLines {
        file,
        space: work,
        wanted,
    };
    lines::fill(&shown, maps, out);
    pictures::clear(work);
}

// The map lines, each with its row of the picture at the front of a space: the row shown at a width that the file offers.
#[derive(Clone, Copy, Debug, PartialEq, Eq)]
struct ShownLines<'a> {
    file: Opened<'a>,
    space: &'a [u8],
    wanted: usize,
    ghost shown: { Showing file.text.now file.head wanted space.now },
}

impl<'a> Lines<u8> for ShownLines<'a> {
    ghost text = { λ s. s.file.text.now };

    ghost from = { λ s r. maps_from (parse s.file.text.now) r };

    ghost count = { λ s. s.file.head.size.height };

    ghost long = { λ s. s.wanted * pixel_bytes s.file.head.size.kind };

    ghost whole = { λ s. drawn_bytes (shows s.file.text.now s.wanted) };

    fn count(&self) -> usize {
        self.file.head.size.height
    }

    fn long(&self) -> usize {
        self.wanted * pixel_bytes(self.file.head.size.kind)
    }

    fn part(&self, r: usize, at: Cursor, part: &mut [u8]) -> Cursor {
        let size = self.file.head.size;
        // on the stack, with as many places as the widest row has: nothing is allocated
        let mut numbers = [0u16; LARGEST_SIDE];
        let next = self.file.map_line(at, &mut numbers[..size.width]);
        let stride = size.width * pixel_bytes(size.kind);
        let a = r * stride;
        let row = &self.space[a..a + stride];
        // no method joins the last column to the first yet
        map_show::row_at(
            size.kind,
            false,
            row,
            &numbers[..size.width],
            self.wanted,
            part,
        )
        .unwrap();
        next
    }
}
