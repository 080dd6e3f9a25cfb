//! Reads nodes in brackets (flow collections, productions 136 to 161) to their ends. Offsets count bytes.
ghost use Rattle.std.specs.Prelude.{◌≡◌, ◌+◌, ◌<◌, ◌≤◌, IfOk};
ghost use Rattle.std.specs.Str.{IsCharBoundary};
ghost use Rattle.yf_diagnose.specs.Brackets.{IsOpen};
ghost use Rattle.yf_diagnose.specs.SecondReadings.{IsReadAfter};

use crate::diagnosis::{Mistake, refused};
use crate::gap::gap_end;
use crate::leaves::{Held, held_content, is_colon_at, is_quote_at, leaf_end};
use crate::lines::{Margin, breaks_between, is_long, sign_why};
use crate::property::is_alias_before;
use crate::why::Why;
use yf_chars::text::is_char_at;
use yf_lines::basic::{is_white_or_end_at, skip_whites};

/// The largest number of brackets open at once.
pub const LEVELS: usize = 1024;

// What may come next in brackets, besides their closing one.
#[derive(Clone, Copy)]
enum Awaits {
    Entry,
    // The key of an entry with a `?`.
    Key,
    Value,
    Comma,
    // A comma, or the `:` of the key before it.
    Colon,
}

// An open bracket.
#[derive(Clone, Copy)]
struct Level {
    mapping: bool,
    awaits: Awaits,
    // The offset of the last entry.
    start: usize,
}

// All open brackets, the innermost last.
#[derive(Drop)]
struct Levels {
    items: [Level; LEVELS],
    count: usize,
}

/// Returns the end of the brackets with the opening one at the offset.
pub(crate) fn brackets_end(text: &str, at: usize, margin: Margin) -> Result<usize, Mistake>
    requires boundary { IsCharBoundary text.now at }
    requires inside { IsCharBoundary text.now (at + 1) }
    ensures { IsReadAfter text.now at result }
{
    let outermost = Level {
        mapping: is_char_at(text, at, b'{'),
        awaits: Awaits::Entry,
        start: at,
    };
    let mut levels = Levels {
        items: [outermost; LEVELS],
        count: 1,
    };
    let mut here = at + 1;
    'signs: loop {
        match gap_end(text, here, margin) {
            Err(told) => return Err(told),
            Ok(sign) => match levels.read(text, sign, margin) {
                Err(told) => return Err(told),
                Ok(next) => here = next,
            },
        }
        if levels.count == 0 {
            return Ok(here);
        }
    }
}

impl Levels {
    fn top(&self) -> Level
        requires { IsOpen self.now.count }
    {
        self.items[self.count - 1]
    }

    fn set(&mut self, level: Level)
        requires { IsOpen self.old.count }
        ensures { self.new.count ≡ self.old.count }
    {
        self.items[self.count - 1] = level;
    }

    fn awaits(&mut self, awaits: Awaits)
        requires { IsOpen self.old.count }
        ensures { self.new.count ≡ self.old.count }
    {
        let top = self.top();
        self.set(Level { awaits, ..top });
    }

    // Reads what begins with the sign at the offset.
    fn read(&mut self, text: &str, at: usize, margin: Margin) -> Result<usize, Mistake>
        requires levels { IsOpen self.old.count }
        requires boundary { IsCharBoundary text.now at }
        ensures levels { IfOk result (λ _. self.new.count ≤ 1024) }
        ensures told { IsReadAfter text.now at result }
    {
        if is_char_at(text, at, b']') {
            return self.close(text, at, false, margin);
        }
        if is_char_at(text, at, b'}') {
            return self.close(text, at, true, margin);
        }
        let top = self.top();
        if is_char_at(text, at, b',') {
            if matches!(top.awaits, Awaits::Entry) {
                return refused(at, Why::NoEntryBeforeComma);
            }
            self.awaits(Awaits::Entry);
            return Ok(at + 1);
        }
        match top.awaits {
            Awaits::Comma => refused(at, comma_why(text, at)),
            Awaits::Colon => refused(at, colon_why(text, at)),
            Awaits::Value => self.entry(text, at, margin),
            Awaits::Key => self.key(text, at, margin),
            Awaits::Entry => {
                if is_char_at(text, at, b'?') {
                    if is_white_or_end_at(text, at + 1) {
                        self.awaits(Awaits::Key);
                        return Ok(at + 1);
                    }
                }
                self.key(text, at, margin)
            }
        }
    }

    // Reads the closing bracket of a mapping or a sequence.
    fn close(
        &mut self,
        text: &str,
        at: usize,
        mapping: bool,
        margin: Margin,
    ) -> Result<usize, Mistake>
        requires levels { IsOpen self.old.count }
        requires boundary { IsCharBoundary text.now at }
        requires inside { IsCharBoundary text.now (at + 1) }
        ensures levels { IfOk result (λ _. self.new.count ≤ 1024) }
        ensures told { IsReadAfter text.now at result }
    {
        let top = self.top();
        if top.mapping != mapping {
            return refused(at, Why::WrongBracket);
        }
        self.count -= 1;
        if self.count == 0 {
            return Ok(at + 1);
        }
        self.after(text, at, at + 1, true, margin)
    }

    // Reads a key or an item, or the `:` of an empty key.
    fn key(&mut self, text: &str, at: usize, margin: Margin) -> Result<usize, Mistake>
        requires levels { IsOpen self.old.count }
        requires boundary { IsCharBoundary text.now at }
        ensures levels { IfOk result (λ _. self.new.count ≤ 1024) }
        ensures told { IsReadAfter text.now at result }
    {
        if is_colon_at(text, at, false) {
            return self.colon(text, at, at, false);
        }
        self.entry(text, at, margin)
    }

    // Reads a node, from its properties on.
    fn entry(&mut self, text: &str, at: usize, margin: Margin) -> Result<usize, Mistake>
        requires levels { IsOpen self.old.count }
        requires boundary { IsCharBoundary text.now at }
        ensures levels { IfOk result (λ _. self.new.count ≤ 1024) }
        ensures told { IsReadAfter text.now at result }
    {
        let top = self.top();
        self.set(Level { start: at, ..top });
        match held_content(text, at, margin) {
            Err(told) => Err(told),
            Ok(Held::Empty(end)) => self.after(text, at, end, false, margin),
            Ok(Held::Content(content)) => self.content(text, at, content, margin),
        }
    }

    // Reads the content of a node that begins at `start`.
    fn content(
        &mut self,
        text: &str,
        start: usize,
        at: usize,
        margin: Margin,
    ) -> Result<usize, Mistake>
        requires levels { IsOpen self.old.count }
        requires boundary { IsCharBoundary text.now at }
        requires order { start ≤ at }
        ensures levels { IfOk result (λ _. self.new.count ≤ 1024) }
        ensures told { IsReadAfter text.now start result }
    {
        if is_char_at(text, at, b'[') {
            return self.begin(text, start, at, false);
        }
        if is_char_at(text, at, b'{') {
            return self.begin(text, start, at, true);
        }
        match leaf_end(text, at, start < at, margin) {
            Err(told) => Err(told),
            Ok(end) => self.after(text, start, end, is_quote_at(text, at), margin),
        }
    }

    // Reads the opening bracket of a node that begins at `start`.
    fn begin(
        &mut self,
        text: &str,
        start: usize,
        at: usize,
        mapping: bool,
    ) -> Result<usize, Mistake>
        requires levels { IsOpen self.old.count }
        requires boundary { IsCharBoundary text.now at }
        requires inside { IsCharBoundary text.now (at + 1) }
        requires order { start ≤ at }
        ensures levels { IfOk result (λ _. self.new.count ≤ 1024) }
        ensures told { IsReadAfter text.now start result }
    {
        if self.count >= LEVELS {
            return refused(at, Why::NodeEnded);
        }
        self.items[self.count] = Level {
            mapping,
            awaits: Awaits::Entry,
            start: at,
        };
        self.count += 1;
        Ok(at + 1)
    }

    // Reads what may follow a node from `start` to `at`.
    fn after(
        &mut self,
        text: &str,
        start: usize,
        at: usize,
        json: bool,
        margin: Margin,
    ) -> Result<usize, Mistake>
        requires levels { IsOpen self.old.count }
        requires boundary { IsCharBoundary text.now at }
        requires order { start < at }
        ensures levels { IfOk result (λ _. self.new.count ≤ 1024) }
        ensures told { IsReadAfter text.now start result }
    {
        let top = self.top();
        if matches!(top.awaits, Awaits::Value) {
            self.awaits(Awaits::Comma);
            return Ok(at);
        }
        if matches!(top.awaits, Awaits::Entry) {
            if !top.mapping {
                return self.after_item(text, start, at, json);
            }
        }
        match gap_end(text, at, margin) {
            Err(told) => Err(told),
            Ok(next) => {
                if is_colon_at(text, next, json) {
                    return self.colon(text, start, next, json);
                }
                self.awaits(Awaits::Colon);
                Ok(next)
            }
        }
    }

    // Reads what may follow an item of a sequence, which may be the key of a single pair (production 150).
    fn after_item(
        &mut self,
        text: &str,
        start: usize,
        at: usize,
        json: bool,
    ) -> Result<usize, Mistake>
        requires levels { IsOpen self.old.count }
        requires boundary { IsCharBoundary text.now at }
        requires order { start < at }
        ensures levels { IfOk result (λ _. self.new.count ≤ 1024) }
        ensures told { IsReadAfter text.now start result }
    {
        let colon = skip_whites(text, at);
        if !is_colon_at(text, colon, json) {
            self.awaits(Awaits::Comma);
            return Ok(at);
        }
        let top = self.top();
        if breaks_between(text, top.start, colon) {
            return refused(colon, Why::PairOverLines);
        }
        if is_long(text, top.start, colon) {
            return refused(colon, Why::LongKey);
        }
        self.colon(text, start, colon, json)
    }

    // Reads the `:` after a key that begins at `start`.
    fn colon(&mut self, text: &str, start: usize, at: usize, json: bool) -> Result<usize, Mistake>
        requires levels { IsOpen self.old.count }
        requires boundary { IsCharBoundary text.now at }
        requires inside { IsCharBoundary text.now (at + 1) }
        requires order { start ≤ at }
        ensures levels { IfOk result (λ _. self.new.count ≤ 1024) }
        ensures told { IsReadAfter text.now start result }
    {
        self.awaits(Awaits::Value);
        if !json {
            if is_bracket_at(text, at + 1) {
                return refused(at, Why::ColonUnspaced);
            }
        }
        Ok(at + 1)
    }
}

// Returns why the sign at the offset is not a comma.
fn comma_why(text: &str, at: usize) -> Why
    requires { IsCharBoundary text.now at }
{
    if is_char_at(text, at, b':') {
        return Why::SecondColon;
    }
    separator_why(text, at, Why::CommaExpected)
}

// Returns why the sign at the offset is neither a comma nor the `:` of a key.
fn colon_why(text: &str, at: usize) -> Why
    requires { IsCharBoundary text.now at }
{
    if is_char_at(text, at, b':') {
        return Why::ColonUnspaced;
    }
    separator_why(text, at, Why::ColonExpected)
}

// Returns why a sign other than `:` is refused there; for most signs, `why`.
fn separator_why(text: &str, at: usize, why: Why) -> Why
    requires { IsCharBoundary text.now at }
{
    if is_char_at(text, at, b'#') {
        return Why::CommentUnspaced;
    }
    if is_alias_before(text, at) {
        return Why::TextAsAlias;
    }
    sign_why(text, at, why)
}

/// Returns whether an opening bracket is at the offset.
pub(crate) fn is_bracket_at(text: &str, at: usize) -> bool {
    if is_char_at(text, at, b'[') {
        return true;
    }
    is_char_at(text, at, b'{')
}
