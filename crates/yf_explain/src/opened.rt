//! Finds the quote or bracket that is open at an offset of a refused text. It is an estimate. Offsets count bytes.
ghost use Rattle.std.specs.Prelude.{◌<◌, ◌≤◌, IfOk, IfSome};

use crate::look::{block_scalar_end, document_start, is_blank, line_end, quote_end, word_end};
use std::alloc::{AllocError, Global};

/// The state at an offset: the open brackets, and whether a node may begin.
#[derive(Drop)]
struct Met {
    open: Vec<usize>,
    // Whether a node may begin there.
    fresh: bool,
    // The least indentation of a block scalar's text, in columns.
    indent: usize,
    // The start of the line.
    line: usize,
}

/// Returns the offset of the quote or of the innermost bracket that is open at an offset.
pub(crate) fn opened_before(
    alloc: Global,
    text: &str,
    at: usize,
) -> Result<Option<usize>, AllocError>
    ensures { IfOk result (λ found. IfSome found (λ offset. offset < at)) }
{
    let start = document_start(text, at);
    let mut met = Met {
        open: Vec::new(alloc),
        fresh: true,
        indent: 0,
        line: start,
    };
    let mut here = start;
    while here < at {
        if met.is_quote(text, here) {
            let end = quote_end(text, here, at);
            if end >= at {
                return Ok(Some(here));
            }
            met.note_text(here);
            here = end;
        } else {
            here = met.pass(text, here, at)?;
        }
    }
    match met.open.pop() {
        Some(opening) => {
            if opening < at {
                return Ok(Some(opening));
            }
            Ok(None)
        }
        None => Ok(None),
    }
}

impl Met {
    // Returns whether a quote begins there.
    fn is_quote(&self, text: &str, here: usize) -> bool {
        if !self.fresh {
            return false;
        }
        matches!(text.as_bytes().get(here), Some(b'"' | b'\''))
    }

    // Passes a character, a comment or a block scalar, and returns the offset after it.
    fn pass(&mut self, text: &str, here: usize, at: usize) -> Result<usize, AllocError>
        requires { here < at }
        ensures { IfOk result (λ next. here < next) }
    {
        let next = here + 1;
        let Some(sign) = text.as_bytes().get(here) else {
            return Ok(next);
        };
        match sign {
            b'\n' | b'\r' => self.begin_line(next),
            b' ' | b'\t' => {}
            b'#' => {
                if here == self.line || is_blank(text, here.saturating_sub(1)) {
                    return Ok(line_end(text, next));
                }
            }
            b'[' | b'{' => self.begin(here)?,
            b']' | b'}' => self.end(),
            b',' => self.part(),
            b'-' | b'?' | b':' => self.indicate(text, here, *sign),
            b'|' | b'>' => {
                if self.fresh && self.open.is_empty() {
                    return Ok(block_scalar_end(text, next, self.indent));
                }
            }
            b'&' | b'!' => {
                if self.fresh {
                    return Ok(word_end(text, next));
                }
            }
            _ => self.note_text(here),
        }
        Ok(next)
    }

    fn begin_line(&mut self, next: usize) {
        self.fresh = true;
        if self.open.is_empty() {
            self.line = next;
            self.indent = 0;
        }
    }

    // Opens a bracket if a node may begin there, or if another bracket is open.
    fn begin(&mut self, here: usize) -> Result<(), AllocError> {
        if self.fresh || !self.open.is_empty() {
            self.open.push(here)?;
            self.fresh = true;
        }
        Ok(())
    }

    // Closes a bracket.
    fn end(&mut self) {
        let _ = self.open.pop();
        self.fresh = false;
    }

    // Ends an entry within brackets.
    fn part(&mut self) {
        if !self.open.is_empty() {
            self.fresh = true;
        }
    }

    // Notes a `-`, `?` or `:` if it is an indicator: if white space follows it, or if it is a `:` within brackets.
    fn indicate(&mut self, text: &str, here: usize, sign: u8)
        requires { here < usize.MAX }
    {
        if is_blank(text, here + 1) {
            self.indicate_blank(here, sign);
        } else if self.open.is_empty() {
            self.note_text(here);
        } else if sign == b':' {
            self.fresh = true;
        }
    }

    // Notes an indicator before white space: one that begins an entry, or a value after its key.
    fn indicate_blank(&mut self, here: usize, sign: u8) {
        if self.fresh {
            self.indent = here.saturating_sub(self.line).saturating_add(1);
        } else if sign == b':' {
            self.fresh = true;
        }
    }

    // Notes a character of text without quotes.
    fn note_text(&mut self, here: usize) {
        if self.fresh && self.open.is_empty() {
            self.indent = here.saturating_sub(self.line).saturating_add(1);
        }
        self.fresh = false;
    }
}
