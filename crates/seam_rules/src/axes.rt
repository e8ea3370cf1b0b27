// Sizes: turned so that a seam along an axis is vertical, with a column less, and of the marks of a picture.
ghost use Rattle.std.specs.Prelude.{◌≡◌};
ghost use Rattle.seam_rules.specs.Axes.{turned_size, narrowed, grey_of};

use crate::answers::Axis;
use pictures::{Kind, Size};

// The size in which a seam along the axis is vertical.
pub fn turned_size(axis: Axis, size: Size) -> Size
    ensures { result ≡ turned_size axis size }
{
    match axis {
        Axis::Vertical => size,
        Axis::Horizontal => Size {
            width: size.height,
            height: size.width,
            ..size
        },
    }
}

// The size with a column less; width 0 stays 0.
pub fn narrower(size: Size) -> Size
    ensures { result ≡ narrowed size }
{
    Size {
        width: size.width.saturating_sub(1),
        ..size
    }
}

// The size of a grey picture with the same sides, as which marks are moved.
pub fn grey(size: Size) -> Size
    ensures { result ≡ grey_of size }
{
    Size {
        kind: Kind::Grey,
        ..size
    }
}
