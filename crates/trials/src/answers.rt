// The operations on files, with what they give and leave in a line.
ghost use Rattle.std.specs.Prelude.{◌≤◌, length};

use crate::output::{given, print_number, print_numbers, put};
use energy::EnergyRule;
use pictures::{Refusal, Size};
use std::io::Stdout;
use text_theory::Head;

// The number given and the file's length, and how many bytes of each space aren't 0. Gives the length, 0 where there is no
// file.
pub(crate) fn print_build(
    stdout: Stdout,
    picture: &[u8],
    head: Head,
    out: &mut [u8],
    work: &mut [u8],
) -> usize
    ensures { result ≤ length out.new }
{
    let built = file_build::build(picture, head, out, work);
    put(stdout, b"build");
    print_number(stdout, given(built));
    if let Ok(length) = built {
        print_number(stdout, length);
    }
    print_used(stdout, out);
    print_used(stdout, work);
    put(stdout, b"\n");
    built.unwrap_or(0).min(out.len())
}

// The number given, the head, and how many bytes of the work space aren't 0.
pub(crate) fn print_check(stdout: Stdout, file: &[u8], work: &mut [u8]) {
    let checked = file_read::check(file, work);
    put(stdout, b"check");
    print_checked(stdout, checked);
    print_used(stdout, work);
    put(stdout, b"\n");
}

// The same, and the spaces of picture and map.
pub(crate) fn print_read(
    stdout: Stdout,
    file: &[u8],
    picture: &mut [u8],
    map: &mut [u16],
    work: &mut [u8],
) {
    let checked = file_read::read(file, picture, map, work);
    put(stdout, b"read");
    print_checked(stdout, checked);
    print_used(stdout, work);
    put(stdout, b" |");
    print_numbers(stdout, picture);
    put(stdout, b" |");
    print_numbers(stdout, map);
    put(stdout, b"\n");
}

// The width, the number given, the size shown, how many bytes of the work space aren't 0, and the output space.
pub(crate) fn print_show(
    stdout: Stdout,
    file: &[u8],
    wanted: usize,
    out: &mut [u8],
    work: &mut [u8],
) {
    let shown = file_read::show(file, wanted, out, work);
    put(stdout, b"show");
    print_number(stdout, wanted);
    print_number(stdout, given(shown));
    if let Ok(size) = shown {
        print_size(stdout, size);
    }
    print_used(stdout, work);
    put(stdout, b" |");
    print_numbers(stdout, out);
    put(stdout, b"\n");
}

fn print_checked(stdout: Stdout, checked: Result<Head, Refusal>) {
    print_number(stdout, given(checked));
    if let Ok(head) = checked {
        print_size(stdout, head.size);
        put(stdout, word(head.method.energy));
        print_number(stdout, head.depth);
        print_number(stdout, head.growth);
    }
}

// The word of an energy rule, after a blank.
fn word(energy: EnergyRule) -> &'static [u8] {
    match energy {
        EnergyRule::Edge => b" edge",
        EnergyRule::Flat => b" flat",
        EnergyRule::Forward => b" forward",
    }
}

// Width, height, and bytes a pixel.
fn print_size(stdout: Stdout, size: Size) {
    print_number(stdout, size.width);
    print_number(stdout, size.height);
    print_number(stdout, pictures::pixel_bytes(size.kind));
}

// How many bytes of the space aren't 0.
fn print_used(stdout: Stdout, space: &[u8]) {
    print_number(stdout, space.iter().filter(|byte| **byte != 0).count());
}
