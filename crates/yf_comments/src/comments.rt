//! A list of comments.
ghost use Rattle.std.specs.Prelude.{◌≡◌, ◌<◌, [], ◌∷◌, ◌++◌, length, map, slice_get, take, is_ok, if◌then◌else◌};
ghost use Rattle.yf_comments.specs.Comment.{CommentValue, comment_value};

use crate::comment::Comment;
use std::alloc::{AllocError, Global};
use std::marker::Model;

/// A separation that was read: its comments, and the offset after it.
#[derive(Drop)]
pub struct Separation<'a> {
    pub comments: Comments<'a>,
    pub end: usize,
}

/// Comments in the order of the text. A contract sees the list of their values.
#[derive(Drop)]
pub struct Comments<'a> {
    list: Vec<Comment<'a>>,
}

impl<'a> Model for Comments<'a> {
    ghost use Rattle.std.specs.Prelude.{List, map};
    ghost use Rattle.yf_comments.specs.Comment.{CommentValue, comment_value};

    ghost Value = { List CommentValue };

    ghost view = { λ c. map comment_value c.list.items };
}

impl<'a> Comments<'a> {
    pub fn new(alloc: Global) -> Comments<'a>
        ensures { result ≡ [] }
    {
        Comments {
            list: Vec::new(alloc),
        }
    }

    pub fn as_slice(&self) -> &[Comment<'a>]
        ensures { map comment_value result.now ≡ self.now }
    {
        self.list.as_slice()
    }

    pub fn len(&self) -> usize
        ensures { result ≡ length self.now }
    {
        self.list.len()
    }

    /// Returns the comment at an index.
    pub fn at(&self, i: usize) -> &Comment<'a>
        requires { i < length self.now }
        ensures { slice_get self.now i ≡ Some (comment_value result.now) }
    {
        &self.list[i]
    }

    /// Appends a comment. If memory is refused, the list is unchanged.
    pub fn push(&mut self, comment: Comment<'a>) -> Result<(), AllocError>
        ensures { self.new ≡ (if is_ok result then self.old ++ comment_value comment.entry ∷ [] else self.old) }
    {
        self.list.push(comment)?;
        Ok(())
    }

    /// Keeps at most the first `count` comments.
    pub fn truncate(&mut self, count: usize)
        ensures { self.new ≡ take count self.old }
    {
        self.list.truncate(count);
    }

    /// Moves all comments of another list to the end. If memory is refused, the list is unchanged. Most lists that are
    /// appended are empty.
    #[inline(always)]
    pub fn append(&mut self, mut other: Comments<'a>) -> Result<(), AllocError>
        ensures { self.new ≡ (if is_ok result then self.old ++ other.entry else self.old) }
    {
        if other.len() == 0 {
            return Ok(());
        }
        self.list.append(&mut other.list)?;
        Ok(())
    }
}
