// What can't be served, by the numbers of "When it says no".
ghost use Rattle.std.specs.Prelude.{◌≡◌};
ghost use Rattle.pictures.specs.Refusals.{number_of, given as Refusals·given};

// The refusals, each of one number, in the order of their numbers from 1. No operation gives 14 to 20 yet.
#[derive(Clone, Copy, Debug, PartialEq, Eq)]
pub enum Refusal {
    // text or header breaks its form
    Form = 1,
    // width or height 0
    ZeroSide = 2,
    // width or height over the largest side
    TooLarge = 3,
    // a length or a count isn't what the size says
    Count = 4,
    // a mark over 2
    Mark = 5,
    // depth or growth not allowed
    Range = 6,
    // wanted width not offered, or a retarget too far
    NotOffered = 7,
    // output or work space too short
    Space = 8,
    // a map row is no numbering
    MapRow = 9,
    // a recorded seam isn't connected
    BrokenSeam = 10,
    // a recorded seam isn't the one found
    OtherSeam = 11,
    // every seam meets a protected pixel
    AllProtected = 12,
    // a cut of the last column or row
    LastLine = 13,
    // a panorama retargeted, or a horizontal seam of one
    Join = 14,
    // a rectangle is empty or leaves the picture
    Rectangle = 15,
    // a rectangle's name is outside 1 to 64, already laid, or not laid
    RectangleName = 16,
    // the columns brought are connected, but aren't the seam now found
    StaleSeam = 17,
    // a lowest energy above its highest, or a highest above the largest energy
    Ranges = 18,
    // a side of 7 or more where every path is asked for
    GridSide = 19,
    // some path meets no protected pixel
    NotBlocked = 20,
}

// The number of a refusal.
pub fn number(why: Refusal) -> u64
    ensures { result ≡ number_of why }
{
    why as u64
}

// The number that an answer gives; 0 where nothing is refused.
pub fn given(answer: Result<(), Refusal>) -> u64
    ensures { result ≡ Refusals·given answer }
{
    answer.map_or_else(number, |()| 0)
}
