// Objects removed from generated pictures with marks.
use crate::generated::{Marked, Source, bytes, pixels};
use crate::output::{given, print_number, print_numbers, put, put_decimal};
use energy::Method;
use pictures::{Kind, Refusal, Size};
use seam_rules::{Ending, Removal};
use std::io::Stdout;

// Pictures of two rows and every width to 4, of both kinds, with a budget of 0 to 3.
pub(crate) fn trials(stdout: Stdout, method: Method, source: &mut Source) {
    for budget in 0u16..4 {
        for width in 1..5 {
            for kind in [Kind::Grey, Kind::Rgb] {
                let size = Size {
                    width,
                    height: 2,
                    kind,
                };
                print_removal(stdout, Marked::new(size, method, source), budget);
            }
        }
    }
}

// How the removal ends with its count, or the number given; the picture's bytes, the marks and an end of the work space, in
// a line.
fn print_removal(stdout: Stdout, marked: Marked, budget: u16) {
    let Marked {
        size,
        method,
        mut samples,
        mut marks,
    } = marked;
    let picture = &mut samples[..bytes(size)];
    let marks = &mut marks[..pixels(size)];
    let mut work = [1u8; 768];
    let removal = seam_objects::remove(picture, marks, size, method, budget, &mut work);
    print_ending(stdout, removal);
    print_numbers(stdout, picture);
    put(stdout, b" |");
    print_numbers(stdout, marks);
    put(stdout, b" |");
    print_number(stdout, work[767]);
    put(stdout, b"\n");
}

fn print_ending(stdout: Stdout, answer: Result<Removal, Refusal>) {
    match answer {
        Ok(removal) => {
            put(stdout, name(removal.ending));
            print_number(stdout, removal.count);
        }
        Err(_) => put_decimal(stdout, given(answer)),
    }
}

fn name(ending: Ending) -> &'static [u8] {
    match ending {
        Ending::Done => b"done",
        Ending::Narrow => b"narrow",
        Ending::Spent => b"spent",
        Ending::Blocked => b"blocked",
    }
}
