// Files in spaces that just suffice and in spaces that are too short, and files that are damaged.
ghost use Rattle.std.specs.Prelude.{◌≤◌};

use crate::damaged::{LONGEST, Text};
use crate::generated::{Source, bytes, pixels};
use crate::{answers, damaged, files};
use energy::Method;
use pictures::{Kind, Size};
use std::io::Stdout;
use text_theory::Head;

// The example of the specification, and two generated pictures.
pub(crate) fn trials(stdout: Stdout, method: Method, source: &mut Source) {
    let example = Size {
        width: 3,
        height: 2,
        kind: Kind::Grey,
    };
    trial(
        stdout,
        &[10, 10, 40, 10, 50, 40],
        files::full_head(example, method),
    );
    let grey = Size {
        width: 4,
        height: 2,
        kind: Kind::Grey,
    };
    let rgb = Size {
        width: 3,
        height: 2,
        kind: Kind::Rgb,
    };
    for size in [grey, rgb] {
        let samples = source.samples();
        trial(
            stdout,
            &samples[..bytes(size)],
            files::full_head(size, method),
        );
    }
}

// What the whole file gives, what is given in short spaces, and of each damaged file.
fn trial(stdout: Stdout, picture: &[u8], head: Head) {
    let mut space = [0u8; LONGEST];
    let mut work = [1u8; 2304];
    let length = answers::print_build(stdout, picture, head, &mut space, &mut work);
    let file = &space[..length];
    files::print_uses(stdout, file, head);
    print_builds(stdout, picture, head, length);
    print_checks(stdout, file, head);
    print_reads(stdout, file, head);
    print_shows(stdout, file, head);
    damaged::print_damages(stdout, Text { space, length });
}

// Bytes of work space that just suffice.
fn work_bytes(head: Head) -> usize {
    32 * pixels(head.size)
}

// Building in spaces that just suffice, and with one space after the other one byte short. Written out, here and below: a table of
// the lengths would say the same in as many lines.
fn print_builds(stdout: Stdout, picture: &[u8], head: Head, length: usize) {
    let work = work_bytes(head);
    files::build_in(stdout, picture, head, length, work);
    files::build_in(stdout, picture, head, less(length), work);
    files::build_in(stdout, picture, head, length, less(work));
}

// Checking in the same way.
fn print_checks(stdout: Stdout, file: &[u8], head: Head) {
    let work = work_bytes(head);
    files::check_in(stdout, file, work);
    files::check_in(stdout, file, less(work));
}

// Reading.
fn print_reads(stdout: Stdout, file: &[u8], head: Head) {
    let (bytes, pixels, work) = (bytes(head.size), pixels(head.size), work_bytes(head));
    files::read_in(stdout, file, bytes, pixels, work);
    files::read_in(stdout, file, less(bytes), pixels, work);
    files::read_in(stdout, file, bytes, less(pixels), work);
    files::read_in(stdout, file, bytes, pixels, less(work));
}

// Showing at the widest; the last width isn't offered.
fn print_shows(stdout: Stdout, file: &[u8], head: Head) {
    let widest = files::widest(head);
    let (bytes, work) = (files::shown(head, widest), work_bytes(head));
    files::show_in(stdout, file, widest, bytes, work);
    files::show_in(stdout, file, widest, less(bytes), work);
    files::show_in(stdout, file, widest, bytes, less(work));
    files::show_in(
        stdout,
        file,
        widest.saturating_add(1),
        less(bytes),
        less(work),
    );
}

// One less, and not less than 0.
fn less(n: usize) -> usize
    ensures { result ≤ n }
{
    n.saturating_sub(1)
}
