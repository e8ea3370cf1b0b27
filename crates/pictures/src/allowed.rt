// Sizes that no rule refuses: what their bytes and pixels count needs no second look.
ghost use Rattle.std.specs.Prelude.{◌≡◌, ◌≤◌, IfOk};
ghost use Rattle.pictures.specs.Limits.{most_row, most_picture, most_pixels};
ghost use Rattle.pictures.specs.Refusals.{given, refusal};
ghost use Rattle.pictures.specs.Pictures.{row_bytes, picture_bytes, pixels as Pictures·pixels, work_bytes, side_rules};

use crate::refusals::Refusal;
use crate::sizes::{Size, WORK_A_PIXEL, judge_sides, pixel_bytes};

// A size whose sides are allowed.
#[derive(Clone, Copy, Debug, PartialEq, Eq)]
pub struct AllowedSize {
    pub size: Size,
    ghost allowed: { refusal (side_rules size) ≡ 0 },
}

impl AllowedSize {
    // The size, or which of 2 and 3 refuses its sides.
    pub fn new(size: Size) -> Result<Self, Refusal>
        ensures number { given result ≡ refusal (side_rules size) }
        ensures same { IfOk result (λ allowed. allowed.size ≡ size) }
    {
        judge_sides(size)?;
        Ok(AllowedSize { size })
    }

    // Bytes a row.
    #[tactic(auto, using(crate::proofs::Limits::pixel_most))]
    pub fn row_bytes(self) -> usize
        ensures { (result ≡ row_bytes self.size) × (result ≤ most_row) }
    {
        self.size.width * pixel_bytes(self.size.kind)
    }

    // Bytes of the picture.
    pub fn picture_bytes(self) -> usize
        ensures { (result ≡ picture_bytes self.size) × (result ≤ most_picture) }
    {
        self.size.height * self.row_bytes()
    }

    // Pixels of the picture.
    pub fn pixels(self) -> usize
        ensures { (result ≡ Pictures·pixels self.size) × (result ≤ most_pixels) }
    {
        self.size.height * self.size.width
    }

    // Bytes of work space that an operation on the picture asks for.
    pub fn work_bytes(self) -> usize
        ensures { result ≡ work_bytes self.size }
    {
        WORK_A_PIXEL * self.pixels()
    }
}
