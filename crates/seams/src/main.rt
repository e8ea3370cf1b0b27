// The program `seams`: a Netpbm picture on standard input, its multi-size file on standard output.
#![tactic(auto)]

use program_filters::programs::Seams;
use std::io::Write;

// What can't be written is told on standard error, under the program's name: each program is a crate of its own.
fn main(rt: HostRuntime) {
    let ran = program_filters::run(&Seams, &mut rt.stdin(), &mut rt.stdout());
    if let Err(_) = ran.writing {
        let _ = rt
            .stderr()
            .write_all(b"seams: the output could not be written\n");
    }
}
