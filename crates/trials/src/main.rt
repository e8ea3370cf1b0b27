// Runs the operations on generated pictures and prints what they give. The expected output is that of the second
// implementation on the same pictures. The loops by number go through sizes, counts, lengths and rows. One goes
// through places: print_changed, which says so.
#![tactic(auto)]

mod answers;
mod damaged;
mod files;
mod generated;
mod objects;
mod output;
mod retargets;
mod rooms;
mod seams;

use energy::{EnergyRule, Method};
use generated::Source;
use pictures::{Kind, Size};
use std::io::Stdout;

// All trials by each energy rule.
fn main(rt: HostRuntime) {
    let stdout = rt.stdout();
    let mut source = Source { seed: 1 };
    for energy in [EnergyRule::Edge, EnergyRule::Flat, EnergyRule::Forward] {
        trials(stdout, Method { energy }, &mut source);
    }
}

// Pictures of every width to 6 and height to 4, of both kinds; then objects removed, rows and columns together, and files.
fn trials(stdout: Stdout, method: Method, source: &mut Source) {
    for height in 1..5 {
        for width in 1..7 {
            for kind in [Kind::Grey, Kind::Rgb] {
                let size = Size {
                    width,
                    height,
                    kind,
                };
                seams::trial(stdout, size, method, source);
            }
        }
    }
    objects::trials(stdout, method, source);
    retargets::trials(stdout, method, source);
    files::trials(stdout, method, source);
    rooms::trials(stdout, method, source);
}
