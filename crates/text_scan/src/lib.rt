// A whole text read for its form and its counts.
#![tactic(auto)]

ghost use Rattle.std.specs.Prelude.{◌≡◌, ◌≤◌, length};
ghost use Rattle.text_theory.specs.Readers.{answered};
ghost use Rattle.text_theory.specs.Files.{begun, parse};
ghost use Rattle.text_read.specs.Answers.{read};
ghost use Rattle.text_scan.specs.Facts.{facts_in};
ghost use Rattle.text_scan.specs.Inner.{Reached, lines_of};

use text_read::Cursor;
use text_rules::{Items, are_full, items_of, stays_full};
use text_theory::{Head, Name};

// What is known of a file before its numbers are judged: its head, the numbers of row and map lines, and whether each
// of them has as many items as the width says.
#[derive(Clone, Copy, Debug, PartialEq, Eq)]
pub struct Facts {
    pub head: Head,
    pub rows: usize,
    pub maps: usize,
    pub full: bool,
}

// Counts lines, as long as they begin with the name: how many there are, and whether all have as many items as the width says.
// Both are told, as a pair that is the definition's own: how many there are is known of lines that are not full, too.
// Each turn reads a whole line, so no iterator of the text would do.
fn count_lines(
    start: Cursor,
    text: &[u8],
    name: Name,
    what: Items,
    width: usize,
) -> Option<((usize, bool), Cursor)>
    requires { start.at ≤ length text.now }
    ensures { Reached (lines_of (begun name) what width) text.now start.at (read result) }
{
    let mut n: usize = 0;
    let mut full = true;
    let mut here = start;
    while let Some(c) = here.begin(text, name) {
        let (m, d) = c.rest(text, what)?;
        n += 1;
        full = stays_full(full, m, width);
        here = d;
    }
    Some(((n, full), here))
}

// Reads a whole text for its form: what its head says, how many lines it has, and whether all are as wide as the head says.
pub fn scan(text: &[u8]) -> Option<Facts>
    ensures { answered result ≡ facts_in (parse text.now) }
{
    let start = Cursor { at: 0 };
    let (head, c) = start.header(text)?;
    let width = head.size.width;
    let items = items_of(head.size.kind);
    let ((rows, wide), d) = count_lines(c, text, Name::Row, items, width)?;
    let ((maps, filled), e) = count_lines(d, text, Name::Map, Items::Numbers, width)?;
    let end = e.close(text)?;
    let more = end.at < text.len();
    if more {
        return None;
    }
    let full = are_full(wide, filled);
    Some(Facts {
        head,
        rows,
        maps,
        full,
    })
}
