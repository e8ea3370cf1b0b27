// The lines of the head: each begins with its name, and `header` reads one after the other.
ghost use Rattle.pictures.specs.Numbers.{largest_number};
ghost use Rattle.text_theory.specs.Readers.{give, after};
ghost use Rattle.text_theory.specs.Decimal.{number_get};
ghost use Rattle.text_theory.specs.Files.{blank, closed, size_get, range_get, energy_get, head_get};
ghost use Rattle.text_read.specs.Answers.{Told, read, passed, beginning};

use crate::cursor::{Class, Cursor};
use energy::{EnergyRule, Method};
use pictures::Size;
use text_theory::{Head, Name};

impl Cursor {
    // Past the opening bracket of a line and its name.
    pub fn begin(self, text: &[u8], name: Name) -> Option<Cursor>
        ensures { Told (beginning name) text.now self.at (passed result) }
    {
        let c = self.past(text, Class::Opening)?;
        let (found, d) = c.name_word(text)?;
        (found == name).then_some(d)
    }

    // Past the closing bracket of a line and the line end.
    pub fn close(self, text: &[u8]) -> Option<Cursor>
        ensures { Told (after closed (give 0)) text.now self.at (passed result) }
    {
        let c = self.past(text, Class::Closing)?;
        c.past(text, Class::LineEnd)
    }

    // A number with the blank before it.
    fn spaced(self, text: &[u8]) -> Option<(usize, Cursor)>
        ensures { Told (after blank (number_get largest_number)) text.now self.at (read result) }
    {
        let c = self.past(text, Class::Blank)?;
        c.number(text)
    }

    // The line of the size.
    fn size_line(self, text: &[u8]) -> Option<(Size, Cursor)>
        ensures { Told size_get text.now self.at (read result) }
    {
        let a = self.begin(text, Name::Size)?;
        let (width, b) = a.spaced(text)?;
        let (height, c) = b.spaced(text)?;
        let d = c.past(text, Class::Blank)?;
        let (kind, e) = d.kind(text)?;
        let f = e.close(text)?;
        let size = Size {
            width,
            height,
            kind,
        };
        Some((size, f))
    }

    // The line of the range: depth and growth.
    fn range_line(self, text: &[u8]) -> Option<((usize, usize), Cursor)>
        ensures { Told range_get text.now self.at (read result) }
    {
        let a = self.begin(text, Name::Range)?;
        let (depth, b) = a.spaced(text)?;
        let (growth, c) = b.spaced(text)?;
        let d = c.close(text)?;
        Some(((depth, growth), d))
    }

    // The line of the energy.
    fn energy_line(self, text: &[u8]) -> Option<(EnergyRule, Cursor)>
        ensures { Told energy_get text.now self.at (read result) }
    {
        let a = self.begin(text, Name::Energy)?;
        let b = a.past(text, Class::Blank)?;
        let (energy, c) = b.rule(text)?;
        let d = c.close(text)?;
        Some((energy, d))
    }

    // The lines up to the energy.
    pub fn header(self, text: &[u8]) -> Option<(Head, Cursor)>
        ensures { Told head_get text.now self.at (read result) }
    {
        let a = self.begin(text, Name::Multi)?;
        let b = a.past(text, Class::LineEnd)?;
        let (size, c) = b.size_line(text)?;
        let ((depth, growth), d) = c.range_line(text)?;
        let (energy, e) = d.energy_line(text)?;
        let head = Head {
            size,
            method: Method { energy },
            depth,
            growth,
        };
        Some((head, e))
    }
}
