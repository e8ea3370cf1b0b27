// Rows and columns removed together from generated pictures.
use crate::generated::{Source, bytes};
use crate::output::{print_found, print_number, print_numbers, put};
use energy::Method;
use pictures::{Kind, Size};
use seam_rules::{Columns, Rows};
use std::io::Stdout;

// A grey picture and one of three channels.
pub(crate) fn trials(stdout: Stdout, method: Method, source: &mut Source) {
    let grey = Size {
        width: 4,
        height: 2,
        kind: Kind::Grey,
    };
    let rgb = Size {
        width: 3,
        height: 3,
        kind: Kind::Rgb,
    };
    for size in [grey, rgb] {
        let samples = source.samples();
        trial(stdout, &samples[..bytes(size)], size, method);
    }
}

// A line for each count of rows and of columns up to 2.
fn trial(stdout: Stdout, picture: &[u8], size: Size, method: Method) {
    for rows in 0..3 {
        for columns in 0..3 {
            print_retarget(stdout, picture, size, method, Rows(rows), Columns(columns));
        }
    }
}

// The number given, the total, the output space and an end of the work space, in a line.
fn print_retarget(
    stdout: Stdout,
    picture: &[u8],
    size: Size,
    method: Method,
    rows: Rows,
    columns: Columns,
) {
    let mut out = [7u8; 20];
    let mut work = [1u8; 2100];
    let total = seam_retarget::retarget(picture, size, method, rows, columns, &mut out, &mut work);
    print_found(stdout, total);
    print_numbers(stdout, &out);
    print_number(stdout, work[2099]);
    put(stdout, b"\n");
}
