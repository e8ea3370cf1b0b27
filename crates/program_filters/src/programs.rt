// A program is a filter that is run from a reader to a writer.
ghost use Rattle.std.specs.Prelude.{ℕ, List};
ghost use Rattle.program_netpbm.specs.Outputs.{Wrote};
ghost use Rattle.program_theory.specs.Programs.{seams as Programs·seams, fit as Programs·fit};
ghost use Rattle.program_filters.specs.Running.{Runs};

use crate::fit_program::fit;
use crate::seams_program::seams;
use program_netpbm::OUTPUT_SPACE;
use program_rules::MOST_INPUT;
use std::io;
use std::io::{Read, Write};

// A filter from the bytes of an input to the bytes of an output.
pub trait Filter {
    // What it writes for an input.
    ghost writes: { List ℕ → List ℕ };

    fn filter(&self, input: &[u8], out: &mut [u8; OUTPUT_SPACE]) -> usize
        ensures { Wrote (writes input.now) out.old result out.new };
}

pub struct Seams;

pub struct Fit;

impl Filter for Seams {
    ghost writes = { Programs·seams };

    fn filter(&self, input: &[u8], out: &mut [u8; OUTPUT_SPACE]) -> usize {
        seams(input, out)
    }
}

impl Filter for Fit {
    ghost writes = { Programs·fit };

    fn filter(&self, input: &[u8], out: &mut [u8; OUTPUT_SPACE]) -> usize {
        fit(input, out)
    }
}

// How a run ended: whether a read failed, and whether the output was written.
#[derive(Drop)]
pub struct Ran {
    pub reading: io::Result<()>,
    pub writing: io::Result<()>,
}

// Reads an input, filters it and writes what the filter gave. One byte more than is served is enough to know that the input is
// too long. Where a read fails, the input is what came before it.
pub fn run<F: Filter, R: Read, W: Write>(filter: &F, reader: &mut R, writer: &mut W) -> Ran
    ensures { Runs F.writes (R.remaining reader.old) (R.remaining reader.new) result (W.contents writer.old) (W.contents writer.new) }
{
    let mut input = [0u8; MOST_INPUT + 1];
    let (length, reading) = program_rules::read_full(reader, &mut input);
    let mut output = [0u8; OUTPUT_SPACE];
    let written = filter.filter(&input[..length], &mut output);
    let writing = writer.write_all(&output[..written]);
    Ran { reading, writing }
}
