//! The list of a reading's comments: that of the readers of comments.

pub use yf_comments::comments::Comments;
