// A place of a text, by value, as docs/DECISIONS.md lists among the language forms: its methods take it and hand back the moved
// one. The text is lent beside it: a place that held its text would have to promise at each step that the text is still the same.
ghost use Rattle.std.specs.Prelude.{◌≡◌, true, [], ◌∷◌};
ghost use Rattle.pictures.specs.Numbers.{largest_number};
ghost use Rattle.text_theory.specs.Readers.{answered};
ghost use Rattle.text_theory.specs.Words.{name_text};
ghost use Rattle.text_theory.specs.Decimal.{number_get};
ghost use Rattle.text_read.specs.Answers.{Told, read, passed, is_letter, class_of, class_number, of_class};
ghost use Rattle.text_read.specs.Inner.{ClassAt, DigitOf, DigitAt, DigitIs, Reading, passing, within};

use pictures::numbers::LARGEST_NUMBER;
use text_rules::letters_of;
use text_theory::Name;

#[derive(Clone, Copy, Debug, PartialEq, Eq)]
pub struct Cursor {
    pub at: usize,
}

// What a byte is: a digit with its value, a small letter with its byte, or one of the bytes between words.
#[derive(Clone, Copy, Debug, PartialEq, Eq)]
pub enum Class {
    Digit(usize),
    Letter(u8),
    Opening,
    Closing,
    Blank,
    LineEnd,
    Other,
}

pub fn class_of(b: u8) -> Class
    ensures { result ≡ class_of b }
{
    match b {
        b'0'..=b'9' => Class::Digit((b - b'0') as usize),
        b'a'..=b'z' => Class::Letter(b),
        b'(' => Class::Opening,
        b')' => Class::Closing,
        b' ' => Class::Blank,
        b'\n' => Class::LineEnd,
        _ => Class::Other,
    }
}

// The value of a digit, which stands from 48 to 57. The byte is widened before it is met, so that its value needn't be.
#[inline(always)]
pub(crate) fn digit_of(b: u8) -> Option<usize>
    ensures { DigitOf b result }
{
    let n = b as usize;
    match n {
        48..=57 => Some(n - 48),
        _ => None,
    }
}

// The number of a class, by which two are told apart: two digits are of one class, which == on their values would not say.
fn class_number(class: Class) -> usize
    ensures { result ≡ class_number class }
{
    match class {
        Class::Digit(_) => 0,
        Class::Letter(_) => 1,
        Class::Opening => 2,
        Class::Closing => 3,
        Class::Blank => 4,
        Class::LineEnd => 5,
        Class::Other => 6,
    }
}

// The number n and the place after it, if it isn't too large.
fn judged(n: usize, at: usize) -> Option<(usize, Cursor)>
    ensures { read result ≡ within largest_number n at }
{
    (n <= LARGEST_NUMBER).then_some((n, Cursor { at }))
}

impl Cursor {
    // What the byte here is; None at the end of the text.
    pub(crate) fn class(self, text: &[u8]) -> Option<Class>
        ensures { ClassAt text.now self.at result }
    {
        let byte = text.get(self.at)?;
        Some(class_of(*byte))
    }

    // Past one byte of this class, if one stands here.
    pub fn past(self, text: &[u8], class: Class) -> Option<Cursor>
        ensures { Told (of_class class) text.now self.at (passed result) }
    {
        let found = self.class(text)?;
        (class_number(found) == class_number(class)).then_some(Cursor { at: self.at + 1 })
    }

    // The digit here, if one stands here.
    #[inline(always)]
    fn digit(self, text: &[u8]) -> Option<usize>
        ensures { DigitAt text.now self.at result }
    {
        let byte = text.get(self.at)?;
        digit_of(*byte)
    }

    // A number without leading zeros, up to the largest.
    #[inline(always)]
    pub(crate) fn digits(self, text: &[u8]) -> Option<(usize, Cursor)>
        ensures { Told (number_get largest_number) text.now self.at (read result) }
    {
        let first = self.digit(text)?;
        self.from_digit(text, first)
    }

    // The number whose first digit stands here. Up to three digits, as all samples have, are read without a loop.
    #[inline(always)]
    pub(crate) fn from_digit(self, text: &[u8], first: usize) -> Option<(usize, Cursor)>
        requires { DigitIs text.now self.at first }
        ensures { Told (number_get largest_number) text.now self.at (read result) }
    {
        let second_at = Cursor { at: self.at + 1 };
        let lone = first == 0;
        if lone {
            return Some((0, second_at));
        }
        let Some(second) = second_at.digit(text) else {
            return Some((first, second_at));
        };
        let third_at = Cursor { at: self.at + 2 };
        let tens = first * 10 + second;
        let Some(third) = third_at.digit(text) else {
            return Some((tens, third_at));
        };
        let fourth_at = Cursor { at: self.at + 3 };
        let hundreds = tens * 10 + third;
        match fourth_at.digit(text) {
            None => Some((hundreds, fourth_at)),
            Some(_) => self.further(text, hundreds, fourth_at.at),
        }
    }

    // The number that begins here and has said n up to a place. It is too large as soon as its first digits are.
    #[inline(never)]
    fn further(self, text: &[u8], so_far: usize, at: usize) -> Option<(usize, Cursor)>
        requires { Reading largest_number text.now self.at so_far at }
        ensures { Told (number_get largest_number) text.now self.at (read result) }
    {
        let further = &text[at..];
        let mut n = so_far;
        for (i, b) in further.iter().enumerate() {
            let Some(d) = digit_of(*b) else {
                return judged(n, at + i);
            };
            if LARGEST_NUMBER < n {
                return None;
            }
            n = n * 10 + d;
        }
        judged(n, text.len())
    }

    // Past the letters of a name, if they stand here.
    pub(crate) fn letters(self, text: &[u8], name: Name) -> Option<Cursor>
        ensures { Told (passing (name_text name)) text.now self.at (passed result) }
    {
        let letters = letters_of(name);
        let mut here = self;
        for letter in letters {
            here = here.letter(text, *letter)?;
        }
        Some(here)
    }

    // Past this small letter, if it stands here.
    fn letter(self, text: &[u8], letter: u8) -> Option<Cursor>
        requires { is_letter letter ≡ true }
        ensures { Told (passing (letter ∷ [])) text.now self.at (passed result) }
    {
        let Class::Letter(found) = self.class(text)? else {
            return None;
        };
        (found == letter).then_some(Cursor { at: self.at + 1 })
    }
}
