// Words: numbers and names.
ghost use Rattle.std.specs.Prelude.{◌≤◌};
ghost use Rattle.pictures.specs.Numbers.{largest_number};
ghost use Rattle.text_theory.specs.Words.{name_get, kind_get, rule_get};
ghost use Rattle.text_theory.specs.Decimal.{number_get};
ghost use Rattle.text_read.specs.Answers.{Told, read, word};

use crate::cursor::{Class, Cursor};
use energy::EnergyRule;
use pictures::Kind;
use pictures::numbers::LARGEST_NUMBER;
use text_rules::{all_names, kind_named, rule_named};
use text_theory::Name;

#[derive(Clone, Copy, Debug, PartialEq, Eq)]
pub enum Word {
    Number(usize),
    Name(Name),
}

impl Cursor {
    // The first of the names that stands here.
    fn name(self, text: &[u8]) -> Option<(Name, Cursor)>
        ensures { Told name_get text.now self.at (read result) }
    {
        for name in all_names() {
            if let Some(c) = self.letters(text, name) {
                return Some((name, c));
            }
        }
        None
    }

    // A word: a number, which begins with a digit, or a name, which begins with a small letter.
    pub fn word(self, text: &[u8]) -> Option<(Word, Cursor)>
        ensures { Told word text.now self.at (read result) }
    {
        match self.class(text)? {
            Class::Digit(_) => {
                let (n, c) = self.digits(text)?;
                Some((Word::Number(n), c))
            }
            Class::Letter(_) => {
                let (name, c) = self.name(text)?;
                Some((Word::Name(name), c))
            }
            _ => None,
        }
    }

    // A number up to the limit.
    #[inline(always)]
    pub(crate) fn limited(self, text: &[u8], limit: usize) -> Option<(usize, Cursor)>
        requires { limit ≤ largest_number }
        ensures { Told (number_get limit) text.now self.at (read result) }
    {
        let (n, c) = self.digits(text)?;
        (n <= limit).then_some((n, c))
    }

    // A word that is a number.
    pub fn number(self, text: &[u8]) -> Option<(usize, Cursor)>
        ensures { Told (number_get largest_number) text.now self.at (read result) }
    {
        self.limited(text, LARGEST_NUMBER)
    }

    // A word that is a name.
    pub(crate) fn name_word(self, text: &[u8]) -> Option<(Name, Cursor)>
        ensures { Told name_get text.now self.at (read result) }
    {
        let (word, c) = self.word(text)?;
        let Word::Name(name) = word else {
            return None;
        };
        Some((name, c))
    }

    // A word that is the name of a kind.
    pub fn kind(self, text: &[u8]) -> Option<(Kind, Cursor)>
        ensures { Told kind_get text.now self.at (read result) }
    {
        let (name, c) = self.name_word(text)?;
        let kind = kind_named(name)?;
        Some((kind, c))
    }

    // A word that is the name of an energy rule.
    pub(crate) fn rule(self, text: &[u8]) -> Option<(EnergyRule, Cursor)>
        ensures { Told rule_get text.now self.at (read result) }
    {
        let (name, c) = self.name_word(text)?;
        let rule = rule_named(name)?;
        Some((rule, c))
    }
}
