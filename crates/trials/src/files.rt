// Multi-size files of generated pictures: built, checked, read, and shown at every width.
ghost use Rattle.std.specs.Prelude.{◌≤◌};

use crate::answers;
use crate::generated::{Source, bytes, pixels};
use crate::output::put;
use energy::Method;
use pictures::{Kind, Size};
use std::io::Stdout;
use text_theory::Head;

// Files of pictures of every width to 5 and height to 3, of both kinds, that offer all widths; then two that offer fewer.
pub(crate) fn trials(stdout: Stdout, method: Method, source: &mut Source) {
    for height in 1..4 {
        for width in 1..6 {
            for kind in [Kind::Grey, Kind::Rgb] {
                let size = Size {
                    width,
                    height,
                    kind,
                };
                trial(stdout, full_head(size, method), source);
            }
        }
    }
    let grey = Size {
        width: 5,
        height: 2,
        kind: Kind::Grey,
    };
    let rgb = Size {
        width: 4,
        height: 3,
        kind: Kind::Rgb,
    };
    for (size, depth, growth) in [(grey, 2, 1), (rgb, 1, 0)] {
        let head = Head {
            size,
            method,
            depth,
            growth,
        };
        trial(stdout, head, source);
    }
}

// The head of a file that offers all widths.
pub(crate) fn full_head(size: Size, method: Method) -> Head {
    Head {
        size,
        method,
        depth: size.width.saturating_sub(1),
        growth: size.width / 2,
    }
}

// What building gives, and what the file gives.
fn trial(stdout: Stdout, head: Head, source: &mut Source) {
    let samples = source.samples();
    let mut text = [0u8; 512];
    let mut work = [1u8; 2304];
    let picture = &samples[..bytes(head.size)];
    let length = answers::print_build(stdout, picture, head, &mut text, &mut work);
    print_uses(stdout, &text[..length], head);
}

// The file; what checking and reading give; and what is shown at every width from 0 to one over the widest.
pub(crate) fn print_uses(stdout: Stdout, file: &[u8], head: Head) {
    put(stdout, file);
    check_in(stdout, file, 2304);
    read_in(
        stdout,
        file,
        bytes(head.size) + 1,
        pixels(head.size) + 1,
        2304,
    );
    for wanted in 0..=widest(head).saturating_add(1) {
        show_in(stdout, file, wanted, shown(head, wanted) + 1, 2304);
    }
}

// The largest width that the file offers.
pub(crate) fn widest(head: Head) -> usize {
    head.size.width.saturating_add(head.growth)
}

// How many bytes the file shows at this width.
pub(crate) fn shown(head: Head, width: usize) -> usize
    ensures { result ≤ 72 }
{
    bytes(Size { width, ..head.size })
}

// Building in spaces of these lengths.
pub(crate) fn build_in(stdout: Stdout, picture: &[u8], head: Head, out: usize, work: usize) {
    let mut text = [0u8; 512];
    let mut space = [1u8; 2304];
    let text = &mut text[..out.min(512)];
    answers::print_build(stdout, picture, head, text, &mut space[..work.min(2304)]);
}

// Checking in a work space of this length.
pub(crate) fn check_in(stdout: Stdout, file: &[u8], work: usize) {
    let mut space = [1u8; 2304];
    answers::print_check(stdout, file, &mut space[..work.min(2304)]);
}

// Reading into spaces of these lengths.
pub(crate) fn read_in(stdout: Stdout, file: &[u8], bytes: usize, pixels: usize, work: usize) {
    let mut picture = [7u8; 73];
    let mut map = [9u16; 73];
    let mut space = [1u8; 2304];
    answers::print_read(
        stdout,
        file,
        &mut picture[..bytes.min(73)],
        &mut map[..pixels.min(73)],
        &mut space[..work.min(2304)],
    );
}

// A width shown in spaces of these lengths.
pub(crate) fn show_in(stdout: Stdout, file: &[u8], wanted: usize, bytes: usize, work: usize) {
    let mut out = [7u8; 73];
    let mut space = [1u8; 2304];
    let out = &mut out[..bytes.min(73)];
    answers::print_show(stdout, file, wanted, out, &mut space[..work.min(2304)]);
}
