// The program `fit`: a line with a width and a multi-size file on standard input, the picture on standard output.
#![tactic(auto)]

use program_filters::programs::Fit;
use std::io::Write;

// What can't be written is told on standard error, under the program's name: each program is a crate of its own.
fn main(rt: HostRuntime) {
    let ran = program_filters::run(&Fit, &mut rt.stdin(), &mut rt.stdout());
    if let Err(_) = ran.writing {
        let _ = rt
            .stderr()
            .write_all(b"fit: the output could not be written\n");
    }
}
