// Damaged files: the numbers that they are refused by.
ghost use Rattle.std.specs.Prelude.{◌<◌, ◌≤◌};

use crate::output::{given, print_number, put};
use std::io::Stdout;

// The bytes of the largest file.
pub(crate) const LONGEST: usize = 512;

// A file at the front of its space: nothing is allocated, and files are of many lengths.
#[derive(Clone, Copy, Debug, PartialEq, Eq)]
pub(crate) struct Text {
    pub(crate) space: [u8; LONGEST],
    pub(crate) length: usize,
    ghost fits: { length ≤ 512 },
}

// Every front of the file and one byte more, each byte changed to one of five, and each two digits exchanged.
pub(crate) fn print_damages(stdout: Stdout, text: Text) {
    for n in 0..LONGEST.min(text.length + 2) {
        print_given(stdout, &text.space[..n]);
    }
    put(stdout, b"\n");
    for byte in [b'0', b'2', b')', b' ', b'\n'] {
        print_changed(stdout, text, byte);
    }
    for (place, byte) in text.space[..text.length].iter().enumerate() {
        if byte.is_ascii_digit() {
            print_exchanged(stdout, text, place);
        }
    }
}

// Each byte changed to this one. By place: each copy is written at another, and none is read.
fn print_changed(stdout: Stdout, text: Text, byte: u8) {
    for i in 0..text.length {
        let mut copy = text.space;
        copy[i] = byte;
        print_given(stdout, &copy[..text.length]);
    }
    put(stdout, b"\n");
}

// The digit at this place exchanged with each one after it.
fn print_exchanged(stdout: Stdout, text: Text, place: usize)
    requires { place < text.length }
{
    for (i, byte) in text.space[..text.length].iter().enumerate().skip(place + 1) {
        if byte.is_ascii_digit() {
            let mut copy = text.space;
            copy.swap(place, i);
            print_given(stdout, &copy[..text.length]);
        }
    }
    put(stdout, b"\n");
}

// The number that checking gives, and those of reading and of showing at width 1 where they are others.
fn print_given(stdout: Stdout, file: &[u8]) {
    let mut picture = [7u8; 73];
    let mut map = [9u16; 73];
    let mut work = [1u8; 2304];
    let checked = given(file_read::check(file, &mut work));
    let read = given(file_read::read(file, &mut picture, &mut map, &mut work));
    let shown = given(file_read::show(file, 1, &mut picture, &mut work));
    print_number(stdout, checked);
    if read != checked {
        put(stdout, b" read");
        print_number(stdout, read);
    }
    if shown != checked {
        put(stdout, b" show");
        print_number(stdout, shown);
    }
}
