// Pictures of pseudo-random samples, with marks.
ghost use Rattle.std.specs.Prelude.{◌≤◌, length};

use energy::Method;
use pictures::Size;

// The bytes of the largest picture that is generated.
pub(crate) const MOST: usize = 72;

// Pseudo-random numbers.
#[derive(Drop)]
pub(crate) struct Source {
    pub(crate) seed: u16,
}

impl Source {
    fn draw(&mut self) -> u16 {
        self.seed = self.seed.wrapping_mul(25173).wrapping_add(13849);
        self.seed
    }

    // Samples of few values, so that many are equal.
    pub(crate) fn samples(&mut self) -> [u8; MOST] {
        let mut samples = [0u8; MOST];
        for sample in samples.iter_mut() {
            *sample = (self.draw() / 256 % 4 * 60) as u8;
        }
        samples
    }

    // Marks: half are plain, and a few are over 2.
    fn marks(&mut self) -> [u8; MOST] {
        let mut marks = [0u8; MOST];
        for mark in marks.iter_mut() {
            *mark = match self.draw() / 1024 {
                0..=31 => 0,
                32..=47 => 1,
                48..=62 => 2,
                _ => 3,
            };
        }
        marks
    }
}

// How many bytes a generated picture of this size has.
pub(crate) fn bytes(size: Size) -> usize
    ensures { result ≤ 72 }
{
    pictures::picture_bytes(size).min(MOST)
}

// How many marks it has.
pub(crate) fn pixels(size: Size) -> usize
    ensures { result ≤ 72 }
{
    pictures::pixels(size).min(MOST)
}

// A generated picture and its marks, and what its seams are found by. Only the bytes that the size asks for are the picture's.
#[derive(Clone, Copy, Debug, PartialEq, Eq)]
pub(crate) struct Marked {
    pub(crate) size: Size,
    pub(crate) method: Method,
    pub(crate) samples: [u8; MOST],
    pub(crate) marks: [u8; MOST],
}

impl Marked {
    pub(crate) fn new(size: Size, method: Method, source: &mut Source) -> Marked {
        let samples = source.samples();
        let marks = source.marks();
        Marked {
            size,
            method,
            samples,
            marks,
        }
    }

    pub(crate) fn picture(&self) -> &[u8]
        ensures { length result.now ≤ 72 }
    {
        &self.samples[..bytes(self.size)]
    }

    pub(crate) fn marked(&self) -> &[u8]
        ensures { length result.now ≤ 72 }
    {
        &self.marks[..pixels(self.size)]
    }
}
