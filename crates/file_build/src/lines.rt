// The lines of a file, one after the other.
ghost use Rattle.std.specs.Prelude.{◌≡◌, ◌≤◌, length};
ghost use Rattle.pictures.specs.Pictures.{picture as Pictures·picture};
ghost use Rattle.text_theory.specs.Files.{row_lines, map_lines, text as Files·text};
ghost use Rattle.file_build.specs.Inner.Lines.{map_in, parts_in, PrintNeeded, FilePrinted};

use crate::maps::MapBytes;
use crate::source::Source;
use text_lengths::Sink;
use text_print::{MapLine, Mark, RowLine, Text};

// The row lines of a picture.
#[derive(Clone, Copy, Debug, PartialEq, Eq)]
pub struct RowLines<'a> {
    pub source: Source<'a>,
}

impl<'a> Text for RowLines<'a> {
    ghost text = { λ rows. row_lines rows.source.head.size.kind (Pictures·picture rows.source.head.size rows.source.picture.now) };

    fn put<S: Sink>(&self, sink: S) -> Option<S> {
        let source = self.source;
        let size = source.head.size;
        let mut after = sink;
        // by number: pictures::row promises the samples of row r; parts of chunks_exact would first be shown to be those
        for r in 0..size.height {
            let samples = pictures::row(source.picture, size, r);
            after = RowLine {
                kind: size.kind,
                samples,
            }
            .put(after)?;
        }
        Some(after)
    }
}

// The map lines of a map in bytes.
impl<'a> Text for MapBytes<'a> {
    ghost text = { λ map. map_lines (map_in map.width map.height map.bytes.now) };

    fn put<S: Sink>(&self, sink: S) -> Option<S> {
        let map = *self;
        let mut after = sink;
        // by number: chunks_exact asks for rows that are not empty, which the bytes of a map need not have
        for r in 0..map.height {
            let at = r * (2 * map.width);
            let (items, _) = map.bytes[at..at + 2 * map.width].as_chunks::<2>();
            after = MapLine { items }.put(after)?;
        }
        Some(after)
    }
}

// Prints the whole file at the front of out, and gives its length.
pub(crate) fn print_file(source: Source, map: MapBytes, out: &mut [u8]) -> usize
    requires { PrintNeeded source map out.old }
    ensures { FilePrinted source.entry map.entry out.old result out.new }
{
    let text = (source.head, (RowLines { source }, (map, Mark::Closed)));
    text_print::print(out, 0, &text).unwrap()
}
