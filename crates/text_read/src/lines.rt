// Lines read into a lent space. Nothing is written before the whole line is known to have its form and to fit: a first pass
// counts its items, a second takes its numbers, as of any line that is known to stand at its place.
ghost use Rattle.std.specs.Prelude.{◌≡◌, ◌≤◌, map};
ghost use Rattle.text_read.specs.Answers.{read};
ghost use Rattle.text_read.specs.Lines.{row_line, map_line, Taken};
ghost use Rattle.text_read.specs.Inner.{limit_of, numbers_of, line_of};

use crate::cursor::Cursor;
use crate::known::Kept;
use pictures::Kind;
use text_rules::{Items, items_of};
use text_theory::Name;

// How many numbers an item has.
fn numbers_of(what: Items) -> usize
    ensures { result ≡ numbers_of what }
{
    match what {
        Items::Samples => 1,
        Items::Pixels => 3,
        Items::Numbers => 1,
    }
}

impl Cursor {
    // The line of this name at this place: the numbers of its items at the front of out, if they fit. Else out stays.
    fn line<T: Kept>(
        self,
        text: &[u8],
        name: Name,
        what: Items,
        out: &mut [T],
    ) -> Option<(usize, Cursor)>
        requires { limit_of what ≤ T.largest }
        ensures { Taken (line_of name what) text.now self.at (map T.value out.old) (read result) (map T.value out.new) }
    {
        let c = self.begin(text, name)?;
        let (n, d) = c.rest(text, what)?;
        let each = numbers_of(what);
        let room = out.len() / each;
        if room < n {
            return None;
        }
        let count = n * each;
        c.known(text, &mut out[..count]);
        Some((count, d))
    }

    // The row line of this kind's pixels at this place: its samples at the front of out, if they fit. Else out stays.
    pub fn row(self, text: &[u8], kind: Kind, out: &mut [u8]) -> Option<(usize, Cursor)>
        ensures { Taken (row_line kind) text.now self.at out.old (read result) out.new }
    {
        self.line(text, Name::Row, items_of(kind), out)
    }

    // The map line at this place: its numbers at the front of out, if they fit. Else out stays.
    pub fn map(self, text: &[u8], out: &mut [u16]) -> Option<(usize, Cursor)>
        ensures { Taken map_line text.now self.at out.old (read result) out.new }
    {
        self.line(text, Name::Map, Items::Numbers, out)
    }
}
