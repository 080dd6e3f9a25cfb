//! The comment lines after a block scalar (YAML 1.2.2, section 8.1.1.2).
ghost use Rattle.std.specs.Prelude.{◌≡◌, ◌<◌, [], List, length, IfOk};
ghost use Rattle.std.specs.Str.{IsCharBoundary};
ghost use Rattle.yf_lines.specs.Basic.{LineStart};
ghost use Rattle.yf_comments.specs.Comment.{CommentValue};
ghost use Rattle.yf_block_scalar.specs.Body.{Trail, first_noted};

use std::alloc::{AllocError, Global};
use yf_chars::text::is_char_at;
use yf_comments::comment::Comment;
use yf_comments::comments::{Comments, Separation};
use yf_comments::lines::line_end;
use yf_lines::basic::skip_spaces;

// Returns the comments, with the first one's `blank_before` set.
fn note_first<'a>(
    alloc: Global,
    comments: Comments<'a>,
    blank: bool,
) -> Result<Comments<'a>, AllocError>
    ensures { IfOk result (λ c. c ≡ first_noted blank comments.entry) }
{
    let count = comments.len();
    if count == 0 {
        return Ok(comments);
    }
    let mut noted = Comments::new(alloc);
    let items = comments.as_slice();
    let first = items[0];
    noted.push(Comment {
        text: first.text,
        offset: first.offset,
        blank_before: blank,
    })?;
    let mut index = 1;
    while index < items.len() {
        noted.push(items[index])?;
        index += 1;
    }
    Ok(noted)
}

fn no_comments<'a>(alloc: Global, at: usize) -> Separation<'a>
    ensures comments { result.comments ≡ [] }
    ensures end { result.end ≡ at }
{
    Separation {
        comments: Comments::new(alloc),
        end: at,
    }
}

// Reads the comment lines that belong to a scalar with that indentation (l-trail-comments, production 169), and sets
// `blank_before` of the first.
pub(crate) fn read_trail<'a>(
    alloc: Global,
    s: &'a str,
    at: usize,
    indent: usize,
    blank: bool,
) -> Result<Separation<'a>, AllocError>
    requires starts { at < length s.now → LineStart s.now at }
    requires boundary { IsCharBoundary s.now at }
    ensures reads { IfOk result (λ p. (x : List CommentValue) × (Trail s.now indent at p.end x × (p.comments ≡ first_noted blank x))) }
    ensures boundary { IfOk result (λ p. IsCharBoundary s.now p.end) }
{
    let first = skip_spaces(s, at);
    if indent <= first - at {
        return Ok(no_comments(alloc, at));
    }
    if is_char_at(s, first, b'#') {
        match line_end(alloc, s, at)? {
            Some(Separation { comments, end }) => {
                let noted = note_first(alloc, comments, blank)?;
                return Ok(Separation {
                    comments: noted,
                    end,
                });
            }
            None => unreachable!(),
        }
    }
    Ok(no_comments(alloc, at))
}
