// What a file is built from.
ghost use Rattle.std.specs.Prelude.{◌≡◌, ◌<◌, length};
ghost use Rattle.pictures.specs.Refusals.{refusal};
ghost use Rattle.pictures.specs.Pictures.{size_rules};

use text_theory::Head;

// A picture of the size that the head says, and a depth below its width.
#[derive(Clone, Copy, Debug, PartialEq, Eq)]
pub struct Source<'a> {
    pub picture: &'a [u8],
    pub head: Head,
    ghost sized: { refusal (size_rules head.size (length picture.now)) ≡ 0 },
    ghost deep: { head.depth < head.size.width },
}
