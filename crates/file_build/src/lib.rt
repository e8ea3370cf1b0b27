// The multi-size file of a picture.
#![tactic(auto, unfolding(pictures::specs::Pictures::pixel_bytes))]

mod fitting;
mod lines;
mod maps;
mod source;

ghost use Rattle.std.specs.Prelude.{◌≡◌};
ghost use Rattle.pictures.specs.Refusals.{given, refusal};
ghost use Rattle.file_theory.specs.Rules.{build_rules};
ghost use Rattle.file_build.specs.Building.{BuildGiven};
ghost use Rattle.file_build.specs.Inner.Building.{Judged, BuildNeeded, FileGiven};

use maps::MapBytes;
use pictures::Refusal;
use source::Source;
use text_theory::Head;

// The multi-size file of a picture, put into the front of out: its length. Refused by 2, 3, 4, 6 and 8.
pub fn build(picture: &[u8], head: Head, out: &mut [u8], work: &mut [u8]) -> Result<usize, Refusal>
    ensures { BuildGiven picture.now head out.old work.old result out.new work.new }
{
    let source = judge_buffers(picture, head, out.len(), work.len())?;
    Ok(put_file(source, out, work))
}

// The source of a file, or which of 2, 3, 4, 6 and 8 refuses this picture, range and buffers of these lengths.
fn judge_buffers<'a>(
    picture: &'a [u8],
    head: Head,
    out: usize,
    work: usize,
) -> Result<Source<'a>, Refusal>
    ensures { Judged picture.now head out work result }
{
    file_rules::judge_build(head, picture.len(), work)?;
    let source = Source { picture, head };
    // what is left is not looked at: by ok_or it would be a value without a name, and the proof of it was not found
    let Some(_) = fitting::left_of(source, out) else {
        return Err(Refusal::Space);
    };
    Ok(source)
}

// The file where nothing is refused. The map is built in the work space, from a copy of the picture.
fn put_file(source: Source, out: &mut [u8], work: &mut [u8]) -> usize
    requires { BuildNeeded source.picture.now source.head out.old work.old }
    ensures { FileGiven source.entry.picture.now source.entry.head out.old work.old result out.new work.new }
{
    let head = source.head;
    let size = head.size;
    work[..source.picture.len()].copy_from_slice(source.picture);
    map_build::map_in(work, size, head.method, head.depth).unwrap();
    // by the head's size: an AllowedSize beside it would be the same size twice
    let map = MapBytes {
        bytes: &work[map_rules::map_at(size)..map_rules::recorded_at(size)],
        width: size.width,
        height: size.height,
    };
    let length = lines::print_file(source, map, out);
    pictures::clear(work);
    length
}
