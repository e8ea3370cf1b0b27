// Where a text goes: a sink takes its bytes in their order. A text is said once, for any sink: put into the room of this crate it
// is measured, put into a lent space it is printed.
#![tactic(auto)]

ghost use Rattle.std.specs.Prelude.{◌≡◌, ℕ, ◌+◌, ◌*◌, ◌≤◌, List, Option, length};
ghost use Rattle.pictures.specs.declared.sizes.Kind.TheVariants.{Rgb};
ghost use Rattle.text_theory.specs.Decimal.{digits};
ghost use Rattle.text_theory.specs.Files.{blank, each, pixel_text};
ghost use Rattle.text_lengths.specs.Inner.{further_digits, part_length};
ghost use Rattle.text_lengths.specs.Sinks.{puts};
ghost use Rattle.text_lengths.specs.Rooms.{less, pixels_of, room_takes};

// How many samples are counted at a time.
const PART: usize = 4096;

// What takes bytes as long as it has room for them.
pub trait Sink: Drop {
    // The sink after a byte; none where it has no room for it.
    ghost takes: { Self → ℕ → Option Self };

    // Takes these bytes.
    fn put(self, bytes: &[u8]) -> Option<Self>
        ensures { result ≡ puts takes self bytes.now };

    // Takes the digits of a number.
    fn number(self, n: usize) -> Option<Self>
        ensures { result ≡ puts takes self (digits n) };

    // Takes samples, each after a blank.
    fn samples(self, samples: &[u8]) -> Option<Self>
        ensures { result ≡ puts takes self (each blank digits samples.now) };

    // Takes pixels of three samples, each after a blank. Samples that make no whole pixel are left out.
    fn pixels(self, samples: &[u8]) -> Option<Self>
        ensures { result ≡ puts takes self (each blank (pixel_text Rgb) (pixels_of Rgb samples.now)) };
}

// A room for so many bytes. It takes a text by its length alone.
#[derive(Clone, Copy, Debug, PartialEq, Eq)]
pub struct Room {
    pub left: usize,
}

impl Sink for Room {
    ghost takes = { room_takes };

    fn put(self, bytes: &[u8]) -> Option<Self> {
        let left = self.left.checked_sub(bytes.len())?;
        Some(Room { left })
    }

    fn number(self, n: usize) -> Option<Self> {
        let left = self.left.checked_sub(digit_count(n))?;
        Some(Room { left })
    }

    fn samples(self, samples: &[u8]) -> Option<Self> {
        let left = after_samples(self.left, samples)?;
        Some(Room { left })
    }

    // Each pixel has two brackets besides its samples and the blanks before them.
    fn pixels(self, samples: &[u8]) -> Option<Self> {
        let pixels = samples.len() / 3;
        let room = self.left.checked_sub(2 * pixels)?;
        let left = after_samples(room, &samples[..3 * pixels])?;
        Some(Room { left })
    }
}

// What is left of a room after samples, each after a blank: a blank and a digit for each, and the further digits.
fn after_samples(room: usize, samples: &[u8]) -> Option<usize>
    ensures { result ≡ less room (length (each blank digits samples.now)) }
{
    let left = room.checked_sub(2 * samples.len())?;
    left.checked_sub(further_digits(samples))
}

// How many digits samples have besides their first, counted part by part.
fn further_digits(samples: &[u8]) -> usize
    ensures { (result ≡ further_digits samples.now) × (result ≤ 2 * length samples.now) }
{
    let mut count = 0;
    let mut rest = samples;
    while !rest.is_empty() {
        let (part, after) = rest.split_at(rest.len().min(PART));
        count += count_further(part) as usize;
        rest = after;
    }
    count
}

// The same of a part. In 32 bits, and with a byte for each sample, so that many are counted at once: a row is measured in a third of the
// time.
fn count_further(part: &[u8]) -> u32
    requires { length part.now ≤ part_length }
    ensures { result ≡ further_digits part.now }
{
    let mut count = 0;
    for sample in part {
        count += u32::from(u8::from(10 <= *sample) + u8::from(100 <= *sample));
    }
    count
}

// How many digits n has. Most numbers have up to three, which are counted without a branch: rows are measured in a third of the time.
// `checked_ilog10` promises powers of ten, and nothing of digits.
pub fn digit_count(n: usize) -> usize
    ensures { (result ≡ length (digits n)) × (result ≤ n + 1) }
{
    if n < 1000 {
        1 + usize::from(10 <= n) + usize::from(100 <= n)
    } else {
        digit_count(n / 10) + 1
    }
}
