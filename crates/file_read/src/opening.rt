// A file opened: its form, its counts and its range judged.
ghost use Rattle.std.specs.Prelude.{◌≡◌, IfOk, drop};
ghost use Rattle.pictures.specs.Refusals.{given, refusal};
ghost use Rattle.text_theory.specs.Files.{parse};
ghost use Rattle.file_theory.specs.Rules.{part_rules, form_rules};
ghost use Rattle.file_read.specs.Inner.Opening.{Open, rows_from};

use pictures::{Refusal, judge_sides};
use text_read::Cursor;
use text_theory::Head;

// A file that 1 to 6 don't refuse: its text, its head, and the place of its first row line.
#[derive(Clone, Copy, Debug, PartialEq, Eq)]
pub(crate) struct Opened<'a> {
    pub(crate) text: &'a [u8],
    pub(crate) head: Head,
    pub(crate) rows: Cursor,
    ghost open: { Open text.now head },
    ghost place: { drop rows.at text.now ≡ rows_from head.size.kind (parse text.now) 0 },
}

impl<'a> Opened<'a> {
    // The file of a text, or which of 1 to 6 refuses it.
    pub(crate) fn new(text: &'a [u8]) -> Result<Opened<'a>, Refusal>
        ensures number { given result ≡ refusal (form_rules part_rules (parse text.now)) }
        ensures same { IfOk result (λ file. file.text.now ≡ text.now) }
    {
        let facts = text_scan::scan(text).ok_or(Refusal::Form)?;
        let head = facts.head;
        let size = head.size;
        judge_sides(size)?;
        if !file_rules::counts_agree(size.height, facts.rows, facts.maps, facts.full) {
            return Err(Refusal::Count);
        }
        if !map_rules::is_allowed(size.width, head.depth, head.growth) {
            return Err(Refusal::Range);
        }
        let start = Cursor { at: 0 };
        let (_, rows) = start.header(text).unwrap();
        Ok(Opened { text, head, rows })
    }
}
