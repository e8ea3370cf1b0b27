// The lines of a file that is opened, read one after the other, each into its part of a space.
ghost use Rattle.std.specs.Prelude.{◌≡◌, ◌++◌, ◌+◌, ◌*◌, ◌≤◌, ◌<◌, ℕ, List, length, drop};
ghost use Rattle.grids.specs.Rows.{flat, row_at};
ghost use Rattle.pictures.specs.Numbers.{pairs};
ghost use Rattle.pictures.specs.Pictures.{bytes, row_bytes, picture_bytes};
ghost use Rattle.text_theory.specs.Files.{parse};
ghost use Rattle.file_theory.specs.Shows.{bytes_in, rows_in, maps_in};
ghost use Rattle.file_read.specs.Inner.Opening.{rows_from, maps_from};
ghost use Rattle.file_read.specs.Inner.Lines.{ReadsMap, PictureRead};

use crate::opening::Opened;
use pictures::pixel_bytes;
use text_read::Cursor;

// Lines that follow one another, one for each row of the picture. Line r fills part r of a space.
pub(crate) trait Lines<T> {
    // The text, and what stands in it from line r on.
    ghost text: { Self → List ℕ };

    ghost from: { Self → ℕ → List ℕ };

    // How many lines there are, how long a part is, and all parts one after the other.
    ghost count: { Self → ℕ };

    ghost long: { Self → ℕ };

    ghost whole: { Self → List T };

    fn count(&self) -> usize
        ensures { result ≡ count self.now };

    fn long(&self) -> usize
        ensures { result ≡ long self.now };

    // Reads line r at its place, fills its part, and gives the place after it. r is for the lines shown alone, which show a row of the
    // picture.
    fn part(&self, r: usize, at: Cursor, part: &mut [T]) -> Cursor
        requires there { drop at.at (text self.now) ≡ from self.now r }
        requires inside { r < count self.now }
        requires fits { length part.old ≡ long self.now }
        ensures next { drop result.at (text self.now) ≡ from self.now (r + 1) }
        ensures filled { part.new ≡ row_at (long self.now) r (whole self.now) };
}

// Reads the lines from the first one on into the front of a space, and gives the place after them. Each part is lent by its place:
// chunks_exact_mut promises nothing of what is written through its parts.
pub(crate) fn fill<T, L: Lines<T>>(lines: &L, first: Cursor, space: &mut [T]) -> Cursor
    requires there { drop first.at (L.text lines.now) ≡ L.from lines.now 0 }
    requires size { length (L.whole lines.now) ≡ L.count lines.now * L.long lines.now }
    requires room { length (L.whole lines.now) ≤ length space.old }
    ensures next { drop result.at (L.text lines.now) ≡ L.from lines.now (L.count lines.now) }
    ensures filled { space.new ≡ L.whole lines.now ++ drop (length (L.whole lines.now)) space.old }
{
    let long = lines.long();
    let mut here = first;
    for r in 0..lines.count() {
        let a = r * long;
        here = lines.part(r, here, &mut space[a..a + long]);
    }
    here
}

impl<'a> Opened<'a> {
    // Reads all row lines into the front of a space, and gives the place of the first map line.
    pub(crate) fn read_picture(&self, space: &mut [u8]) -> Cursor
        requires { picture_bytes self.now.head.size ≤ length space.old }
        ensures { PictureRead self.now.text.now self.now.head space.old result.at space.new }
    {
        fill(&RowLines(*self), self.rows, space)
    }

    // Reads the map line at a place into a space of just its numbers, and gives the place after it.
    pub(crate) fn map_line(&self, at: Cursor, out: &mut [u16]) -> Cursor
        requires { length out.old ≡ self.now.head.size.width }
        ensures { ReadsMap self.now.text.now self.now.head at.at result.at out.new }
    {
        at.known_map(self.text, out)
    }
}

// The row lines: the samples of the picture.
// These and the next three each say their text and their count: a trait that asked for the file instead would ask it twice, as a
// ghost and as a function.
#[derive(Clone, Copy, Debug, PartialEq, Eq)]
struct RowLines<'a>(Opened<'a>);

impl<'a> Lines<u8> for RowLines<'a> {
    ghost text = { λ s. s.0.text.now };

    ghost from = { λ s r. rows_from s.0.head.size.kind (parse s.0.text.now) r };

    ghost count = { λ s. s.0.head.size.height };

    ghost long = { λ s. row_bytes s.0.head.size };

    ghost whole = { λ s. bytes_in (parse s.0.text.now) };

    fn count(&self) -> usize {
        self.0.head.size.height
    }

    fn long(&self) -> usize {
        self.0.head.size.width * pixel_bytes(self.0.head.size.kind)
    }

    fn part(&self, _r: usize, at: Cursor, part: &mut [u8]) -> Cursor {
        at.known_row(self.0.text, part)
    }
}

// The map lines: the numbers of the map.
#[derive(Clone, Copy, Debug, PartialEq, Eq)]
pub(crate) struct MapLines<'a>(pub(crate) Opened<'a>);

impl<'a> Lines<u16> for MapLines<'a> {
    ghost text = { λ s. s.0.text.now };

    ghost from = { λ s r. maps_from (parse s.0.text.now) r };

    ghost count = { λ s. s.0.head.size.height };

    ghost long = { λ s. s.0.head.size.width };

    ghost whole = { λ s. flat (maps_in (parse s.0.text.now)) };

    fn count(&self) -> usize {
        self.0.head.size.height
    }

    fn long(&self) -> usize {
        self.0.head.size.width
    }

    fn part(&self, _r: usize, at: Cursor, part: &mut [u16]) -> Cursor {
        self.0.map_line(at, part)
    }
}

// The map lines again, each number as two bytes: the recorded map.
#[derive(Clone, Copy, Debug, PartialEq, Eq)]
pub(crate) struct RecordLines<'a>(pub(crate) Opened<'a>);

impl<'a> Lines<u8> for RecordLines<'a> {
    ghost text = { λ s. s.0.text.now };

    ghost from = { λ s r. maps_from (parse s.0.text.now) r };

    ghost count = { λ s. s.0.head.size.height };

    ghost long = { λ s. 2 * s.0.head.size.width };

    ghost whole = { λ s. pairs (flat (maps_in (parse s.0.text.now))) };

    fn count(&self) -> usize {
        self.0.head.size.height
    }

    fn long(&self) -> usize {
        2 * self.0.head.size.width
    }

    fn part(&self, _r: usize, at: Cursor, part: &mut [u8]) -> Cursor {
        at.known_record(self.0.text, part)
    }
}
