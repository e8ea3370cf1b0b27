// Seams of a generated picture, found and cut, without marks and with them. Each of the four is a call of its own, by arguments of
// its own: what they have in common is print_found and print_numbers.
use crate::generated::{Marked, Source, bytes, pixels};
use crate::output::{print_found, print_number, print_numbers, put, put_decimal};
use energy::Method;
use pictures::Size;
use seam_rules::Axis;
use std::io::Stdout;

// One picture: its seams and cuts along both axes, without marks and with them, and what is given of each of its rows and of
// the row below the last.
pub(crate) fn trial(stdout: Stdout, size: Size, method: Method, source: &mut Source) {
    let marked = Marked::new(size, method, source);
    for axis in [Axis::Vertical, Axis::Horizontal] {
        print_find(stdout, &marked, axis);
    }
    for axis in [Axis::Vertical, Axis::Horizontal] {
        print_cut(stdout, &marked, axis);
    }
    for axis in [Axis::Vertical, Axis::Horizontal] {
        print_find_marked(stdout, &marked, axis);
        put(stdout, b" | ");
        print_cut_marked(stdout, &marked, axis);
        put(stdout, b"\n");
    }
    for r in 0..=size.height {
        print_row(stdout, &marked, r);
    }
}

// The number given, the cost, the seam's space and an end of the work space, in a line.
fn print_find(stdout: Stdout, marked: &Marked, axis: Axis) {
    let mut seam = [9u16; 8];
    let mut work = [1u8; 768];
    let found = seam_cut::find(
        marked.picture(),
        marked.size,
        marked.method,
        axis,
        &mut seam,
        &mut work,
    );
    print_found(stdout, found);
    print_numbers(stdout, &seam);
    print_number(stdout, work[767]);
    put(stdout, b"\n");
}

// The same by marks, without the end of the line.
fn print_find_marked(stdout: Stdout, marked: &Marked, axis: Axis) {
    let mut seam = [9u16; 8];
    let mut work = [1u8; 768];
    let found = seam_cut_marked::find_marked(
        marked.picture(),
        marked.marked(),
        marked.size,
        marked.method,
        axis,
        &mut seam,
        &mut work,
    );
    print_found(stdout, found);
    print_numbers(stdout, &seam);
    print_number(stdout, work[767]);
}

// The number given, the cost, and the picture's bytes, in a line.
fn print_cut(stdout: Stdout, marked: &Marked, axis: Axis) {
    let mut space = marked.samples;
    let picture = &mut space[..bytes(marked.size)];
    let mut seam = [9u16; 8];
    let mut work = [1u8; 768];
    let found = seam_cut::cut(
        picture,
        marked.size,
        marked.method,
        axis,
        &mut seam,
        &mut work,
    );
    print_found(stdout, found);
    print_numbers(stdout, picture);
    put(stdout, b"\n");
}

// The number given, the cost, the picture's bytes and the marks.
fn print_cut_marked(stdout: Stdout, marked: &Marked, axis: Axis) {
    let mut space = marked.samples;
    let mut left = marked.marks;
    let picture = &mut space[..bytes(marked.size)];
    let marks = &mut left[..pixels(marked.size)];
    let mut seam = [9u16; 8];
    let mut work = [1u8; 768];
    let found = seam_cut_marked::cut_marked(
        picture,
        marks,
        marked.size,
        marked.method,
        axis,
        &mut seam,
        &mut work,
    );
    print_found(stdout, found);
    print_numbers(stdout, picture);
    put(stdout, b" |");
    print_numbers(stdout, marks);
}

// The number given, the energies' space and the row, in a line.
fn print_row(stdout: Stdout, marked: &Marked, r: usize) {
    let mut out = [7u32; 8];
    let answer = energy::energies(marked.picture(), marked.size, marked.method, r, &mut out);
    put_decimal(stdout, pictures::given(answer));
    print_numbers(stdout, &out);
    put(stdout, b" |");
    print_numbers(stdout, pictures::row(marked.picture(), marked.size, r));
    put(stdout, b"\n");
}
