// What a file leaves of a room: judged from sizes and samples, without the map.
ghost use Rattle.std.specs.Prelude.{◌≡◌, ◌++◌, ◌*◌, ◌<◌, ◌≤◌, length, drop, replicate};
ghost use Rattle.seam_theory.specs.Paths.{run};
ghost use Rattle.pictures.specs.Pictures.{largest_side};
ghost use Rattle.text_theory.specs.Files.{map_text};
ghost use Rattle.text_lengths.specs.Rooms.{less};
ghost use Rattle.file_build.specs.Building.{file_in};

use crate::lines::RowLines;
use crate::source::Source;
use pictures::LARGEST_SIDE;
use text_print::{MapLine, Mark, left_after};

// The numbers from 1 on, put into a row.
fn put_order(row: &mut [u16])
    requires { length row.old ≤ largest_side }
    ensures { row.new ≡ run 1 (length row.old) }
{
    for (t, number) in row.iter_mut().enumerate() {
        *number = t as u16 + 1;
    }
}

// A row of the numbers from 1 to the depth, and zeros after them.
fn order_row(depth: usize) -> [u16; LARGEST_SIDE]
    requires { depth ≤ largest_side }
    ensures { result ≡ run 1 depth ++ drop depth (replicate largest_side 0) }
{
    let mut row = [0u16; LARGEST_SIDE];
    put_order(&mut row[..depth]);
    row
}

// What `count` map lines leave of a room, each as long as this row's.
fn lines_left(room: usize, count: usize, row: &[u16]) -> Option<usize>
    requires { 0 < count }
    ensures { result ≡ less room (count * length (map_text row.now)) }
{
    let after = left_after(room, &MapLine { items: row })?;
    let line = room - after;
    room.checked_sub(count.checked_mul(line)?)
}

// What the file leaves of a room. Each map line is as long as that of the numbers in their order and zeros after them, whatever
// the seams are.
pub(crate) fn left_of(source: Source, room: usize) -> Option<usize>
    ensures { result ≡ less room (length (file_in source.entry.head source.entry.picture.now)) }
{
    let head = source.head;
    let size = head.size;
    let maps = left_after(room, &(head, RowLines { source }))?;
    let row = order_row(head.depth);
    let last = lines_left(maps, size.height, &row[..size.width])?;
    left_after(last, &Mark::Closed)
}
