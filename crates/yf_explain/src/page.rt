//! Texts that a terminal shows as they are.
ghost use Rattle.std.specs.Prelude.{◌≡◌, ◌+◌, ◌++◌, ◌∷◌, ◌<◌, ◌≤◌, [], true, IfOk, length};
ghost use Rattle.std.specs.Str.{IsCharBoundary, chars};
ghost use Rattle.yf_explain.specs.Shown as Shown;
ghost use Rattle.yf_explain.specs.Source.{AddsPart};

use crate::classes::{columns_of, is_visible};
use std::alloc::{AllocError, Global};
use std::marker::Model;
use yf_chars::text::peek;

/// Lines of characters that are shown as they are. A contract sees the list of these characters.
#[derive(Drop)]
pub struct Page {
    string: String,
}

impl Model for Page {
    ghost use Rattle.std.specs.Prelude.{ℕ, List};
    ghost use Rattle.std.specs.Str.{chars};
    ghost use Rattle.std.specs.String.{string_bytes};
    ghost use Rattle.yf_explain.specs.Shown.{AreWritten};

    ghost Value = { List ℕ };

    ghost view = { λ page. chars (string_bytes page.string) };

    ghost invariant = { λ page. AreWritten (chars (string_bytes page.string)) };
}

/// A part of a text that was added: the offset after it, and its width in columns.
#[derive(Clone, Copy)]
pub(crate) struct Part {
    pub(crate) end: usize,
    pub(crate) columns: usize,
}

impl Page {
    /// Returns an empty page.
    pub fn new(alloc: Global) -> Page
        ensures { result ≡ [] }
    {
        Page {
            string: String::new(alloc),
        }
    }

    /// Returns the text of the page.
    pub fn as_str(&self) -> &str
        ensures text { chars result.now ≡ self.now }
        ensures written { Shown.AreWritten self.now }
    {
        self.string.as_str()
    }

    /// Ends a line.
    pub fn push_break(&mut self) -> Result<(), AllocError>
        ensures { IfOk result (λ _. self.new ≡ self.old ++ 10 ∷ []) }
    {
        self.push_visible('\n')
    }

    /// Adds a character as it is shown.
    #[tactic(auto, unfolding(crate::specs::Shown::shown))]
    pub fn push(&mut self, c: char) -> Result<(), AllocError>
        ensures { IfOk result (λ _. self.new ≡ self.old ++ Shown.shown c) }
    {
        if is_visible(c) {
            return self.push_visible(c);
        }
        self.push_number(c)
    }

    /// Adds the characters of a part of a text that fit in the given number of columns.
    pub(crate) fn push_part(
        &mut self,
        text: &str,
        from: usize,
        to: usize,
        most: usize,
    ) -> Result<Part, AllocError>
        requires boundary { IsCharBoundary text.now from }
        requires order { from ≤ to }
        ensures { IfOk result (λ part. AddsPart text.now from to most self.old self.new part.end part.columns) }
    {
        let mut end = from;
        let mut columns = 0;
        while end < to {
            let Some((c, next)) = peek(text, end) else {
                return Ok(Part { end, columns });
            };
            let width = columns_of(c);
            if next > to {
                return Ok(Part { end, columns });
            }
            if width > most - columns {
                return Ok(Part { end, columns });
            }
            self.push(c)?;
            columns += width;
            end = next;
        }
        Ok(Part { end, columns })
    }

    /// Adds characters that are shown as they are.
    pub(crate) fn push_signs(&mut self, signs: &str) -> Result<(), AllocError>
        requires { Shown.AreWritten signs.now }
        ensures { IfOk result (λ _. self.new ≡ self.old ++ signs.now) }
    {
        for sign in signs.as_bytes() {
            self.push_visible(char::from(*sign))?;
        }
        Ok(())
    }

    /// Adds a byte by its number.
    pub(crate) fn push_byte(&mut self, byte: u8) -> Result<(), AllocError>
        ensures { IfOk result (λ _. self.new ≡ self.old ++ 120 ∷ Shown.digits byte) }
    {
        self.push_visible('x')?;
        self.push_digits(u32::from(byte))
    }

    // Adds a character that is shown as it is, or a line feed.
    fn push_visible(&mut self, c: char) -> Result<(), AllocError>
        requires { Shown.is_written c ≡ true }
        ensures { IfOk result (λ _. self.new ≡ self.old ++ c ∷ []) }
    {
        self.string.push(c)
    }

    // Adds a character by its number.
    fn push_number(&mut self, c: char) -> Result<(), AllocError>
        ensures { IfOk result (λ _. self.new ≡ self.old ++ Shown.number c) }
    {
        let number = u32::from(c);
        self.push_visible('\\')?;
        if number < 0x100 {
            self.push_visible('x')?;
            return self.push_digits(number);
        }
        if number < 0x10000 {
            self.push_visible('u')?;
            self.push_digits(number / 256)?;
            return self.push_digits(number % 256);
        }
        self.push_visible('U')?;
        self.push_digits(0)?;
        self.push_digits(number / 65536)?;
        self.push_digits(number / 256 % 256)?;
        self.push_digits(number % 256)
    }

    // Adds the two digits of a byte.
    fn push_digits(&mut self, byte: u32) -> Result<(), AllocError>
        requires { byte < 256 }
        ensures { IfOk result (λ _. self.new ≡ self.old ++ Shown.digits byte) }
    {
        self.push_visible(digit(byte / 16))?;
        self.push_visible(digit(byte % 16))
    }
}

// Returns a hexadecimal digit in upper case.
fn digit(value: u32) -> char
    requires { value < 16 }
    ensures digit { result ≡ Shown.digit value }
    ensures written { Shown.is_written result ≡ true }
{
    if value < 10 {
        return char::from(48 + value as u8);
    }
    char::from(55 + value as u8)
}
