// Which number refuses an operation on a file: what its size, its range and the lengths of the lent spaces say.
ghost use Rattle.std.specs.Prelude.{◌≡◌};
ghost use Rattle.pictures.specs.Refusals.{given, refusal};
ghost use Rattle.map_theory.specs.Widths.{offered};
ghost use Rattle.file_rules.specs.Inner.{Sound};
ghost use Rattle.file_rules.specs.Spaces.{work_rules, read_space_rules, wanted_rules, build_space_rules};

use pictures::{AllowedSize, Refusal, Size, judge_picture, pixel_bytes};
use text_theory::Head;

// Which of 2, 3 and 8 refuses a work space of this length for a file of this size, or none.
pub fn judge_work(size: Size, work: usize) -> Result<(), Refusal>
    ensures { given result ≡ refusal (work_rules size work) }
{
    let allowed = AllowedSize::new(size)?;
    if work < allowed.work_bytes() {
        return Err(Refusal::Space);
    }
    Ok(())
}

// Which of 2, 3 and 8 refuses to read a file of this size into spaces of these lengths, or none.
pub fn judge_read_spaces(size: Size, picture: usize, map: usize, work: usize) -> Result<(), Refusal>
    ensures { given result ≡ refusal (read_space_rules size picture map work) }
{
    let allowed = AllowedSize::new(size)?;
    if picture < allowed.picture_bytes() || map < allowed.pixels() || work < allowed.work_bytes() {
        return Err(Refusal::Space);
    }
    Ok(())
}

// Whether the widths of a file of this size and range have the wanted one among them.
fn is_offered(head: Head, wanted: usize) -> bool
    requires { Sound head }
    ensures { result ≡ offered head.size.width head.depth head.growth wanted }
{
    head.size.width - head.depth <= wanted && wanted <= head.size.width + head.growth
}

// Which of 2, 3, 6, 7 and 8 refuses to show a file of this size and range at the wanted width in spaces of these lengths,
// or none.
pub fn judge_wanted(head: Head, wanted: usize, out: usize, work: usize) -> Result<(), Refusal>
    ensures { given result ≡ refusal (wanted_rules head wanted out work) }
{
    let allowed = AllowedSize::new(head.size)?;
    let size = head.size;
    if !map_rules::is_allowed(size.width, head.depth, head.growth) {
        return Err(Refusal::Range);
    }
    if !is_offered(head, wanted) {
        return Err(Refusal::NotOffered);
    }
    if out < size.height * (wanted * pixel_bytes(size.kind)) || work < allowed.work_bytes() {
        return Err(Refusal::Space);
    }
    Ok(())
}

// Which of 2, 3, 4, 6 and 8 refuses to build a file of this size and range from a picture of this many bytes in a work space
// of this length, or none. The output space is judged apart: what the file takes isn't known from the size.
pub fn judge_build(head: Head, bytes: usize, work: usize) -> Result<(), Refusal>
    ensures { given result ≡ refusal (build_space_rules head bytes work) }
{
    judge_picture(head.size, bytes)?;
    if !map_rules::is_allowed(head.size.width, head.depth, head.growth) {
        return Err(Refusal::Range);
    }
    if work < pictures::work_bytes(head.size) {
        return Err(Refusal::Space);
    }
    Ok(())
}
