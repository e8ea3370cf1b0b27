// The bytes of a map, as they stand in a work space.
ghost use Rattle.std.specs.Prelude.{◌≡◌, ◌*◌, ◌≤◌, length};
ghost use Rattle.pictures.specs.Pictures.{largest_side};

// So many rows of so many numbers, of two bytes each.
#[derive(Clone, Copy, Debug, PartialEq, Eq)]
pub struct MapBytes<'a> {
    pub bytes: &'a [u8],
    pub width: usize,
    pub height: usize,
    ghost long: { length bytes.now ≡ height * (2 * width) },
}
