// Texts, and the smallest of them: bytes, names, numbers, and the marks between them. A longer text is a pair of texts.
ghost use Rattle.std.specs.Prelude.{◌≡◌, ◌++◌, ℕ, List};
ghost use Rattle.text_theory.specs.Decimal.{digits};
ghost use Rattle.text_theory.specs.Words.{name_text};
ghost use Rattle.text_theory.specs.Files.{blank, each};
ghost use Rattle.text_lengths.specs.Sinks.{puts};
ghost use Rattle.text_print.specs.Marks.{mark_text};

use text_lengths::Sink;
use text_theory::Name;

// What has a text. It is put into a sink that measures it, and into one that writes it, by the same code.
pub trait Text {
    ghost text: { Self → List ℕ };

    // Puts the whole text; none where the sink has no room for it.
    fn put<S: Sink>(&self, sink: S) -> Option<S>
        ensures { result ≡ puts S.takes sink (text self.now) };
}

// What stands between names and numbers.
#[derive(Clone, Copy, Debug, PartialEq, Eq)]
pub enum Mark {
    Opening,
    Blank,
    LineEnd,
    // the end of a line: its closing bracket and the line end; the last line is no more than that
    Closed,
}

impl Text for Mark {
    ghost text = { mark_text };

    fn put<S: Sink>(&self, sink: S) -> Option<S> {
        match self {
            Mark::Opening => sink.put(b"("),
            Mark::Blank => sink.put(b" "),
            Mark::LineEnd => sink.put(b"\n"),
            Mark::Closed => sink.put(b")\n"),
        }
    }
}

impl Text for &[u8] {
    ghost text = { λ bytes. bytes.now };

    fn put<S: Sink>(&self, sink: S) -> Option<S> {
        sink.put(*self)
    }
}

impl Text for Name {
    ghost text = { name_text };

    fn put<S: Sink>(&self, sink: S) -> Option<S> {
        sink.put(text_rules::letters_of(*self))
    }
}

// A number of each width, cast: one impl for all numbers would be one for every type, and names and marks are types too.
impl Text for usize {
    ghost text = { digits };

    fn put<S: Sink>(&self, sink: S) -> Option<S> {
        sink.number(*self)
    }
}

impl Text for u16 {
    ghost text = { digits };

    fn put<S: Sink>(&self, sink: S) -> Option<S> {
        sink.number(*self as usize)
    }
}

impl Text for u8 {
    ghost text = { digits };

    fn put<S: Sink>(&self, sink: S) -> Option<S> {
        sink.number(*self as usize)
    }
}

// The first text, then the second.
impl<A: Text, B: Text> Text for (A, B) {
    ghost text = { λ pair. A.text pair.0 ++ B.text pair.1 };

    fn put<S: Sink>(&self, sink: S) -> Option<S> {
        self.1.put(self.0.put(sink)?)
    }
}

// Items, each after a blank.
#[derive(Clone, Copy, Debug, PartialEq, Eq)]
pub struct Each<'a, T> {
    pub items: &'a [T],
}

impl<'a, T: Text> Text for Each<'a, T> {
    ghost text = { λ each_of. each blank T.text each_of.items.now };

    fn put<S: Sink>(&self, sink: S) -> Option<S> {
        let mut after = sink;
        for item in self.items {
            after = item.put(Mark::Blank.put(after)?)?;
        }
        Some(after)
    }
}
