// Lines that are known to stand at a place, read once: whatever stands between their numbers is passed over.
ghost use Rattle.std.specs.Prelude.{◌≡◌, ℕ, ◌≤◌, eqb, map, length, drop};
ghost use Rattle.std.specs.List.{position};
ghost use Rattle.pictures.specs.Numbers.{largest_number};
ghost use Rattle.text_read.specs.Answers.{Told, read};
ghost use Rattle.text_read.specs.Lines.{map_line, record_line, Known, KnownRow};
ghost use Rattle.text_read.specs.Inner.{figure, after_line, Numbered};

use crate::cursor::{Cursor, digit_of};
use pictures::numbers::LARGEST_NUMBER;

// What the numbers of a line are kept as: samples as one byte, numbers of the map as two. Of a type parameter, TryFrom<usize> says
// neither which numbers it takes nor what number a value is.
pub(crate) trait Kept: Drop {
    ghost value: { Self → ℕ };

    ghost largest: { ℕ };

    // The number, if it isn't over the largest; else any value.
    fn kept(n: usize) -> Self
        ensures { n ≤ largest → value result ≡ n };
}

impl Kept for u8 {
    ghost value = { λ n. n };

    ghost largest = { 255 };

    fn kept(n: usize) -> u8 {
        (n % 256) as u8
    }
}

impl Kept for u16 {
    ghost value = { λ n. n };

    ghost largest = { largest_number };

    fn kept(n: usize) -> u16 {
        (n % (LARGEST_NUMBER + 1)) as u16
    }
}

// The place of the first line end.
fn line_end(s: &[u8]) -> Option<usize>
    ensures { result ≡ position (λ b. eqb b 10) s.now }
{
    s.iter().position(|b| *b == b'\n')
}

impl Cursor {
    // The next number, whatever stands before it: in a line, its word, blanks and brackets.
    fn figure(self, text: &[u8]) -> Option<(usize, Cursor)>
        ensures { Told figure text.now self.at (read result) }
    {
        let mut here = self;
        while let Some(byte) = text.get(here.at) {
            if let Some(first) = digit_of(*byte) {
                return here.from_digit(text, first);
            }
            here = Cursor { at: here.at + 1 };
        }
        None
    }

    // The place after the next line end, or at the end of the text.
    fn after_line(self, text: &[u8]) -> Cursor
        ensures { drop result.at text.now ≡ after_line (drop self.at text.now) }
    {
        let Some(rest) = text.get(self.at..) else {
            return self;
        };
        match line_end(rest) {
            Some(gap) => Cursor {
                at: self.at + gap + 1,
            },
            None => Cursor { at: text.len() },
        }
    }

    // Fills out with the numbers that come next, and gives the place after the line end that follows them.
    pub(crate) fn known<T: Kept>(self, text: &[u8], out: &mut [T]) -> Cursor
        ensures { Numbered T.largest (length out.old) text.now self.at result.at (map T.value out.new) }
    {
        let mut here = self;
        for place in out.iter_mut() {
            let Some((v, next)) = here.figure(text) else {
                return here;
            };
            *place = T::kept(v);
            here = next;
        }
        here.after_line(text)
    }

    // The row line that is known to stand at this place: fills out with its samples, and gives the place after it.
    pub fn known_row(self, text: &[u8], out: &mut [u8]) -> Cursor
        ensures { KnownRow text.now self.at out.old result.at out.new }
    {
        self.known(text, out)
    }

    // The map line that is known to stand at this place: fills out with its numbers, and gives the place after it.
    pub fn known_map(self, text: &[u8], out: &mut [u16]) -> Cursor
        ensures { Known map_line text.now self.at out.old result.at out.new }
    {
        self.known(text, out)
    }

    // The same map line: fills out with its numbers, two bytes each, the low one first. By index: as_chunks_mut promises nothing of
    // what is written through its parts.
    pub fn known_record(self, text: &[u8], out: &mut [u8]) -> Cursor
        ensures { Known record_line text.now self.at out.old result.at out.new }
    {
        let mut here = self;
        for i in 0..out.len() / 2 {
            let Some((v, next)) = here.figure(text) else {
                return here;
            };
            out[2 * i..2 * i + 2].copy_from_slice(&u16::kept(v).to_le_bytes());
            here = next;
        }
        here.after_line(text)
    }
}
