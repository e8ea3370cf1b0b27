// The picture and the map of a file read back.
ghost use Rattle.file_read.specs.Reading.{ReadGiven};

use crate::lines;
use crate::lines::MapLines;
use crate::opening::Opened;
use pictures::Refusal;
use text_theory::Head;

// The picture of a file into the front of one space, its map into the front of another, and its head. Refused by
// what checking refuses, and by 8 where a space is shorter than what it takes.
pub fn read(
    file: &[u8],
    picture: &mut [u8],
    map: &mut [u16],
    work: &mut [u8],
) -> Result<Head, Refusal>
    ensures { ReadGiven file.now picture.old map.old work.old result picture.new map.new work.new }
{
    let opened = Opened::new(file)?;
    file_rules::judge_read_spaces(opened.head.size, picture.len(), map.len(), work.len())?;
    opened.judge(work)?;
    let maps = opened.read_picture(picture);
    lines::fill(&MapLines(opened), maps, map);
    Ok(opened.head)
}
