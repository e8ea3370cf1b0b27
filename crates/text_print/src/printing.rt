// A text printed: written into a lent space from a place on.
ghost use Rattle.std.specs.Prelude.{◌≡◌, ◌+◌, ◌≤◌, length};
ghost use Rattle.std.proofs.lemmas.List.Edits.{sets};
ghost use Rattle.pictures.specs.declared.sizes.Kind.TheVariants.{Rgb};
ghost use Rattle.text_theory.specs.Decimal.{digits};
ghost use Rattle.text_theory.specs.Files.{pixel_text};
ghost use Rattle.text_lengths.specs.Sinks.{puts};
ghost use Rattle.text_lengths.specs.Rooms.{less};
ghost use Rattle.text_print.specs.Prints.{Put};
ghost use Rattle.text_print.specs.Outs.{out_takes};

use crate::texts::Text;
use text_lengths::{Room, Sink};

// A lent space, and the place where the next byte goes.
#[derive(Drop)]
pub struct Out<'a> {
    space: &'a mut [u8],
    at: usize,
}

impl<'a> Out<'a> {
    // Writes a byte. By the length: by `get_mut` it was not found that the space handed on is the one lent.
    fn byte(self, b: u8) -> Option<Out<'a>>
        ensures { result ≡ out_takes self.entry b }
    {
        let Out { space, at } = self;
        if space.len() <= at {
            return None;
        }
        space[at] = b;
        Some(Out { space, at: at + 1 })
    }

    // Writes the digits of a number, the last of them after the others.
    fn digits(self, n: usize) -> Option<Out<'a>>
        ensures { result ≡ puts out_takes self.entry (digits n) }
    {
        if n < 10 {
            return self.byte(b'0' + n as u8);
        }
        self.digits(n / 10)?.byte(b'0' + (n % 10) as u8)
    }
}

impl<'a> Out<'a> {
    // Writes a pixel of three samples: a form.
    fn pixel(self, pixel: [u8; 3]) -> Option<Out<'a>>
        ensures { result ≡ puts out_takes self.entry (pixel_text Rgb pixel) }
    {
        let [red, green, blue] = pixel;
        self.byte(b'(')?
            .number(red as usize)?
            .samples(&[green, blue])?
            .byte(b')')
    }
}

impl<'a> Sink for Out<'a> {
    ghost takes = { out_takes };

    // Byte by byte, as the promise of a sink is said: of bytes copied at once it would first be shown that they are taken one after the
    // other.
    fn put(self, bytes: &[u8]) -> Option<Self> {
        let mut after = self;
        for b in bytes {
            after = after.byte(*b)?;
        }
        Some(after)
    }

    // Most numbers have up to three digits, which are put at once: a map is printed in three quarters of the time.
    fn number(self, n: usize) -> Option<Self> {
        if n < 10 {
            return self.put(&[b'0' + n as u8]);
        }
        if n < 100 {
            return self.put(&[b'0' + (n / 10) as u8, b'0' + (n % 10) as u8]);
        }
        if n < 1000 {
            let tens = n / 10;
            let digits = [
                b'0' + (tens / 10) as u8,
                b'0' + (tens % 10) as u8,
                b'0' + (n % 10) as u8,
            ];
            return self.put(&digits);
        }
        self.digits(n)
    }

    fn samples(self, samples: &[u8]) -> Option<Self> {
        let mut after = self;
        for sample in samples {
            after = after.byte(b' ')?.number(*sample as usize)?;
        }
        Some(after)
    }

    fn pixels(self, samples: &[u8]) -> Option<Self> {
        let (pixels, _) = samples.as_chunks::<3>();
        let mut after = self;
        for pixel in pixels {
            after = after.byte(b' ')?.pixel(*pixel)?;
        }
        Some(after)
    }
}

// What a text leaves of a room of so many bytes; none where the room is too short for it.
pub fn left_after<T: Text>(room: usize, text: &T) -> Option<usize>
    ensures { result ≡ less room (length (T.text text.now)) }
{
    let after = text.put(Room { left: room })?;
    Some(after.left)
}

// Writes a text at a place of a space that has room for it.
fn write<'a, T: Text>(space: &'a mut [u8], at: usize, text: &T) -> Out<'a>
    requires { at + length (T.text text.now) ≤ length space.old }
    ensures same_space { result.space.ghost_name ≡ space.entry.ghost_name }
    ensures written { result.space.now ≡ sets space.old at (T.text text.now) }
    ensures after { result.at ≡ at + length (T.text text.now) }
{
    text.put(Out { space, at }).unwrap()
}

// Prints a text at a place of a space, and gives the place after it; none where the space is too short, and nothing is printed.
pub fn print<T: Text>(out: &mut [u8], at: usize, text: &T) -> Option<usize>
    ensures { Put out.old at (T.text text.now) result out.new }
{
    left_after(out.len().checked_sub(at)?, text)?;
    Some(write(out, at, text).at)
}
