// A file checked.
ghost use Rattle.std.specs.Prelude.{◌≤◌, length};
ghost use Rattle.pictures.specs.Pictures.{work_bytes};
ghost use Rattle.file_read.specs.Reading.{CheckGiven};
ghost use Rattle.file_read.specs.Inner.Checking.{MapJudged};

use crate::lines;
use crate::lines::RecordLines;
use crate::opening::Opened;
use pictures::Refusal;
use text_theory::Head;

// Checks a file: whether each seam that its map records is the one found in the picture then left. Refused by 1, 2, 3, 4, 6, 8,
// 9, 10 and 11.
pub fn check(file: &[u8], work: &mut [u8]) -> Result<Head, Refusal>
    ensures { CheckGiven file.now work.old result work.new }
{
    let opened = Opened::new(file)?;
    file_rules::judge_work(opened.head.size, work.len())?;
    opened.judge(work)?;
    Ok(opened.head)
}

impl<'a> Opened<'a> {
    // Judges the map of the file, and leaves the work space 0.
    pub(crate) fn judge(&self, work: &mut [u8]) -> Result<(), Refusal>
        requires { work_bytes self.now.head.size ≤ length work.old }
        ensures { MapJudged self.now.text.now work.old result work.new }
    {
        let size = self.head.size;
        // by the head's size: an AllowedSize beside it would be the same size twice
        let at = map_rules::recorded_at(size);
        let end = pictures::work_bytes(size);
        let maps = self.read_picture(work);
        lines::fill(&RecordLines(*self), maps, &mut work[at..end]);
        map_check::judge_in(work, size, self.head.method, self.head.depth)
    }
}
