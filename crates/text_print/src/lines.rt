// The lines of a file.
ghost use Rattle.pictures.specs.declared.sizes.Kind.TheVariants.{Rgb};
ghost use Rattle.std.specs.Prelude.{◌++◌};
ghost use Rattle.text_theory.specs.Decimal.{digits};
ghost use Rattle.text_theory.specs.Files.{blank, each, pixel_text, row_text, map_word, line_text, head_text};
ghost use Rattle.text_lengths.specs.Rooms.{pixels_of};
ghost use Rattle.text_print.specs.Marks.{two_bytes_text};

use crate::texts::{Each, Mark, Text};
use pictures::Kind;
use pictures::numbers::number;
use text_lengths::Sink;
use text_theory::{Head, Name};

// The row line of these samples; samples that make no whole pixel are left out.
#[derive(Clone, Copy, Debug, PartialEq, Eq)]
pub struct RowLine<'a> {
    pub kind: Kind,
    pub samples: &'a [u8],
}

// The map line of these numbers, which are numbers of two bytes or the bytes themselves.
#[derive(Clone, Copy, Debug, PartialEq, Eq)]
pub struct MapLine<'a, T> {
    pub items: &'a [T],
}

// The lines up to the energy.
impl Text for Head {
    ghost text = { head_text };

    fn put<S: Sink>(&self, sink: S) -> Option<S> {
        let first = ((Mark::Opening, Name::Multi), Mark::LineEnd);
        let kind = text_rules::kind_name(self.size.kind);
        let sides = (
            self.size.width,
            (
                Mark::Blank,
                (self.size.height, (Mark::Blank, (kind, Mark::Closed))),
            ),
        );
        let size = ((Mark::Opening, Name::Size), (Mark::Blank, sides));
        let numbers = (self.depth, (Mark::Blank, (self.growth, Mark::Closed)));
        let range = ((Mark::Opening, Name::Range), (Mark::Blank, numbers));
        let rule = text_rules::rule_name(self.method.energy);
        let energy = (
            (Mark::Opening, Name::Energy),
            (Mark::Blank, (rule, Mark::Closed)),
        );
        (first, (size, (range, energy))).put(sink)
    }
}

// Samples, each after a blank.
#[derive(Clone, Copy, Debug, PartialEq, Eq)]
struct Samples<'a> {
    samples: &'a [u8],
}

impl<'a> Text for Samples<'a> {
    ghost text = { λ row. each blank digits row.samples.now };

    fn put<S: Sink>(&self, sink: S) -> Option<S> {
        sink.samples(self.samples)
    }
}

// The pixels of samples, three each, each after a blank.
#[derive(Clone, Copy, Debug, PartialEq, Eq)]
struct Pixels<'a> {
    samples: &'a [u8],
}

impl<'a> Text for Pixels<'a> {
    ghost text = { λ row. each blank (pixel_text Rgb) (pixels_of Rgb row.samples.now) };

    fn put<S: Sink>(&self, sink: S) -> Option<S> {
        sink.pixels(self.samples)
    }
}

impl<'a> Text for RowLine<'a> {
    ghost text = { λ row. row_text row.kind (pixels_of row.kind row.samples.now) };

    fn put<S: Sink>(&self, sink: S) -> Option<S> {
        let begun = (Mark::Opening, Name::Row);
        let samples = self.samples;
        match self.kind {
            Kind::Grey => (begun, (Samples { samples }, Mark::Closed)).put(sink),
            Kind::Rgb => (begun, (Pixels { samples }, Mark::Closed)).put(sink),
        }
    }
}

// A number of two bytes, the low byte first.
impl Text for [u8; 2] {
    ghost text = { two_bytes_text };

    fn put<S: Sink>(&self, sink: S) -> Option<S> {
        let [low, high] = *self;
        sink.number(number(low, high) as usize)
    }
}

impl<'a, T: Text> Text for MapLine<'a, T> {
    ghost text = { λ line. map_word ++ line_text T.text line.items.now };

    fn put<S: Sink>(&self, sink: S) -> Option<S> {
        let items = Each { items: self.items };
        ((Mark::Opening, Name::Map), (items, Mark::Closed)).put(sink)
    }
}
