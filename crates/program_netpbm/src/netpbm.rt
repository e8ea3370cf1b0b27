// Netpbm pictures: the header read, and a picture printed with its header.
ghost use Rattle.std.specs.Prelude.{◌≡◌, ◌++◌};
ghost use Rattle.text_theory.specs.Readers.{answered};
ghost use Rattle.text_read.specs.Answers.{Told, read};
ghost use Rattle.text_print.specs.Prints.{Put};
ghost use Rattle.program_theory.specs.Netpbm.{magic_of, header_text, kind_by, header_get};
ghost use Rattle.program_netpbm.specs.Headers.{last_number};

use pictures::{Kind, Size};
use text_lengths::Sink;
use text_print::{Mark, Text};
use text_read::{Class, Cursor};

// The largest sample, Netpbm's maxval.
const MAXVAL: usize = 255;

// The number after the letter P in the header of a picture of this kind: Netpbm's number, no number of the kind's own.
fn magic_of(kind: Kind) -> usize
    ensures { result ≡ magic_of kind }
{
    match kind {
        Kind::Grey => 5,
        Kind::Rgb => 6,
    }
}

// The kind whose pictures have these two numbers, if there is one.
fn kind_by(magic: usize, maxval: usize) -> Option<Kind>
    ensures { answered result ≡ kind_by magic maxval }
{
    if maxval != MAXVAL {
        return None;
    }
    match magic {
        5 => Some(Kind::Grey),
        6 => Some(Kind::Rgb),
        _ => None,
    }
}

// The last number of a line, and the line end after it.
pub fn last_number(text: &[u8], from: Cursor) -> Option<(usize, Cursor)>
    ensures { Told last_number text.now from.at (read result) }
{
    let (n, c) = from.number(text)?;
    let d = c.past(text, Class::LineEnd)?;
    Some((n, d))
}

// The size that the header at the front of a text says, and the place of the samples after it; none where the header is broken.
pub fn read_header(text: &[u8]) -> Option<(Size, Cursor)>
    ensures { Told header_get text.now 0 (read result) }
{
    // by text.first() the proof was not found
    if text.is_empty() || text[0] != b'P' {
        return None;
    }
    let (magic, a) = last_number(text, Cursor { at: 1 })?;
    let (width, b) = a.number(text)?;
    let c = b.past(text, Class::Blank)?;
    let (height, d) = last_number(text, c)?;
    let (maxval, e) = last_number(text, d)?;
    let kind = kind_by(magic, maxval)?;
    let size = Size {
        width,
        height,
        kind,
    };
    Some((size, e))
}

// A picture of this size: its header, then its samples.
#[derive(Clone, Copy, Debug, PartialEq, Eq)]
pub struct PictureText<'a> {
    pub size: Size,
    pub samples: &'a [u8],
}

impl<'a> Text for PictureText<'a> {
    ghost text = { λ picture. header_text picture.size ++ picture.samples.now };

    fn put<S: Sink>(&self, sink: S) -> Option<S> {
        let letter: &[u8] = b"P";
        let last = (MAXVAL, Mark::LineEnd);
        let height = (self.size.height, (Mark::LineEnd, last));
        let width = (self.size.width, (Mark::Blank, height));
        let header = (letter, (magic_of(self.size.kind), (Mark::LineEnd, width)));
        (header, self.samples).put(sink)
    }
}

// Prints a picture of this size at the front of a space, and gives its length; none where the space is too short.
pub fn print_picture(out: &mut [u8], size: Size, samples: &[u8]) -> Option<usize>
    ensures { Put out.old 0 (header_text size ++ samples.now) result out.new }
{
    text_print::print(out, 0, &PictureText { size, samples })
}
