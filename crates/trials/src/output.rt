// What is printed: numbers with a blank before each, and text.
use pictures::Refusal;
use std::fmt::Display;
use std::io::{Stdout, Write};

// What can't be written is let go.
pub(crate) fn put(mut stdout: Stdout, text: &[u8]) {
    let _ = stdout.write_all(text);
}

// A number with no blank before it.
pub(crate) fn put_decimal(mut stdout: Stdout, n: u64) {
    let _ = write!(stdout, "{n}");
}

// A blank and a number.
pub(crate) fn print_number<N: Display + Copy>(mut stdout: Stdout, n: N) {
    let _ = write!(stdout, " {n}");
}

pub(crate) fn print_numbers<N: Display + Copy>(stdout: Stdout, numbers: &[N]) {
    for n in numbers {
        print_number(stdout, *n);
    }
}

// The number that is refused by, or 0, for answers with a value: pictures::given is of those without one, which alone hosts are given as
// a bare number.
pub(crate) fn given<T: Copy>(answer: Result<T, Refusal>) -> u64 {
    match answer {
        Ok(_) => 0,
        Err(why) => pictures::number(why),
    }
}

// The number given, at the front of a line, and a cost or a total.
pub(crate) fn print_found(stdout: Stdout, found: Result<u64, Refusal>) {
    put_decimal(stdout, given(found));
    if let Ok(cost) = found {
        print_number(stdout, cost);
    }
}
