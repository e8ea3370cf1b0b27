// Forms: an opening bracket, words or further forms, a closing bracket. The form reader and the item reader call each other.
ghost use Rattle.std.specs.Prelude.{◌≤◌};
ghost use Rattle.pictures.specs.Numbers.{largest_number};
ghost use Rattle.text_read.specs.Answers.{Told, read, item_of, form_of, line_rest};
ghost use Rattle.text_read.specs.Inner.{ToldNumbers};

use crate::cursor::{Class, Cursor};
use pictures::numbers::LARGEST_NUMBER;
use text_rules::Items;

impl Cursor {
    // The items of a form, each after a blank, up to the closing bracket: how many there are. Each turn reads a whole item, so no
    // iterator of the bytes would do.
    #[cycle(form_item)]
    #[inline(always)]
    pub fn form(self, text: &[u8], what: Items) -> Option<(usize, Cursor)>
        ensures { Told (form_of what) text.now self.at (read result) }
    {
        match what {
            Items::Samples => return self.numbers(text, 255),
            Items::Numbers => return self.numbers(text, LARGEST_NUMBER),
            Items::Pixels => {}
        }
        let mut n: usize = 0;
        let mut here = self;
        while let Some(class) = here.class(text) {
            let next = Cursor { at: here.at + 1 };
            match class {
                Class::Closing => return Some((n, next)),
                Class::Blank => {}
                _ => return None,
            }
            let (_, after) = next.item(text, what)?;
            n += 1;
            here = after;
        }
        None
    }

    // The same of items that are numbers up to a limit: the item reader, which may come back to the form reader, isn't called.
    #[inline(always)]
    fn numbers(self, text: &[u8], limit: usize) -> Option<(usize, Cursor)>
        requires { limit ≤ largest_number }
        ensures { ToldNumbers limit text.now self.at (read result) }
    {
        let mut n: usize = 0;
        let mut here = self;
        while let Some(class) = here.class(text) {
            let next = Cursor { at: here.at + 1 };
            match class {
                Class::Closing => return Some((n, next)),
                Class::Blank => {}
                _ => return None,
            }
            let (_, after) = next.limited(text, limit)?;
            n += 1;
            here = after;
        }
        None
    }

    // One item: a number, or the form of a pixel with three samples.
    #[cycle(form_item)]
    pub fn item(self, text: &[u8], what: Items) -> Option<(usize, Cursor)>
        ensures { Told (item_of what) text.now self.at (read result) }
    {
        // what is read is a value: a text says in its head of which kind its pixels are
        match what {
            Items::Samples => self.limited(text, 255),
            Items::Numbers => self.limited(text, LARGEST_NUMBER),
            Items::Pixels => {
                let a = self.past(text, Class::Opening)?;
                let (_, b) = a.limited(text, 255)?;
                let (n, c) = b.form(text, Items::Samples)?;
                (n == 2).then_some((3, c))
            }
        }
    }

    // The items of a line, the closing bracket, the line end: how many items there are.
    pub fn rest(self, text: &[u8], what: Items) -> Option<(usize, Cursor)>
        ensures { Told (line_rest what) text.now self.at (read result) }
    {
        let (n, c) = self.form(text, what)?;
        let d = c.past(text, Class::LineEnd)?;
        Some((n, d))
    }
}
