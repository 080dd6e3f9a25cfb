//! Prints the texts of comments.
ghost use Rattle.std.specs.Prelude.{◌≡◌, ◌++◌, map, OnOk};
ghost use Rattle.std.specs.String.{string_bytes};
ghost use Rattle.yf_comments.specs.Comment.{comment_value};
ghost use Rattle.yf_forms.specs.Nodes.Lines.{after_two_spaces, trimmed};
ghost use Rattle.yf_print.specs.Passes.Drafts.{trailing_if};

use std::alloc::AllocError;
use yf_comments::comment::Comment;

/// Returns a text without the white space at its end.
fn without_whites(text: &str) -> &str
    ensures { result.now ≡ trimmed text.now }
{
    text.trim_end_matches([' ', '\t'])
}

/// Appends the text of a comment without the white space at its end.
pub(crate) fn push_comment(out: &mut String, comment: &Comment) -> Result<(), AllocError>
    ensures { OnOk result (string_bytes out.new ≡ string_bytes out.old ++ trimmed (comment_value comment.now).text) }
{
    out.push_str(without_whites(comment.text))
}

/// Appends a comment, two spaces after a text.
#[inline(never)]
fn push_after_space(out: &mut String, comment: &Comment) -> Result<(), AllocError>
    ensures { OnOk result (string_bytes out.new ≡ string_bytes out.old ++ after_two_spaces (comment_value comment.now)) }
{
    out.push_str("  ")?;
    push_comment(out, comment)
}

/// Appends the comment at an index, if any, two spaces after a text.
#[inline(always)]
pub(crate) fn push_after_space_if(
    out: &mut String,
    comments: &[Comment],
    k: Option<usize>,
) -> Result<(), AllocError>
    ensures { OnOk result (string_bytes out.new ≡ string_bytes out.old ++ trailing_if (map comment_value comments.now) k) }
{
    if let Some(k) = k {
        if k < comments.len() {
            return push_after_space(out, &comments[k]);
        }
    }
    Ok(())
}
