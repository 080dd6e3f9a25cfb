//! The lists of a reading.
ghost use Rattle.std.specs.Prelude.{◌≡◌, [], ◌∷◌, ◌++◌, IfOk};

use crate::comments::Comments;
use crate::document::Documents;
use crate::event::PlacedEvent;
use crate::events::Events;
use crate::tags::Tags;
use crate::values::Values;
use std::alloc::{AllocError, Global};
use yf_comments::comment::Comment;
use yf_props::resolved::ResolvedTag;

/// The parts of a stream, in the order of the text.
#[derive(Drop)]
pub struct Lists<'a> {
    /// All events of the stream.
    pub events: Events<'a>,
    /// For each event, the resolved tag of the node that it begins, if it has a tag (YAML 1.2.2, section 6.9.1).
    pub resolved: Tags<'a>,
    pub comments: Comments<'a>,
    /// For each comment, whether it is on the line on which the last leaf with characters before it ends.
    pub on_leaf_line: Values<bool>,
    pub documents: Documents<'a>,
    /// The byte offsets of the escapes that are not characters.
    pub escapes: Values<usize>,
}

impl<'a> Lists<'a> {
    ghost use Rattle.yf_comments.specs.Comment.{comment_value};
    ghost use Rattle.yf_events.specs.Event.{placed_value};
    ghost use Rattle.yf_events.specs.Reading.{ListsFit};

    /// Returns empty lists.
    pub fn new(alloc: Global) -> Lists<'a>
        ensures { result ≡ record { events = []; resolved = []; comments = []; on_leaf_line = []; documents = []; escapes = [] } }
    {
        Lists {
            events: Events::new(alloc),
            resolved: Tags::new(alloc),
            comments: Comments::new(alloc),
            on_leaf_line: Values::new(alloc),
            documents: Documents::new(alloc),
            escapes: Values::new(alloc),
        }
    }

    /// Adds an event at the end, with the resolved tag of the node that it begins. If memory is refused, the event
    /// may be in the list without its tag.
    pub fn push_event(
        &mut self,
        event: PlacedEvent<'a>,
        tag: Option<ResolvedTag<'a>>,
    ) -> Result<(), AllocError>
        ensures added { IfOk result (λ _. self.new ≡ record self.old {
          events = self.old.events ++ placed_value event.entry ∷ [];
          resolved = self.old.resolved ++ tag.entry ∷ [];
        }) }
        ensures fit { ListsFit self.old → IfOk result (λ _. ListsFit self.new) }
    {
        self.events.push(event)?;
        self.resolved.push(tag)
    }

    /// Adds a comment at the end, with its note. If memory is refused, the comment may be in the list without its
    /// note.
    pub fn push_comment(
        &mut self,
        comment: Comment<'a>,
        on_leaf_line: bool,
    ) -> Result<(), AllocError>
        ensures added { IfOk result (λ _. self.new ≡ record self.old {
          comments = self.old.comments ++ comment_value comment.entry ∷ [];
          on_leaf_line = self.old.on_leaf_line ++ on_leaf_line ∷ [];
        }) }
        ensures fit { ListsFit self.old → IfOk result (λ _. ListsFit self.new) }
    {
        self.comments.push(comment)?;
        self.on_leaf_line.push(on_leaf_line)
    }
}
