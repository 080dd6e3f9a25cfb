//! How documents lose their texts if a notification cannot be acted on.
ghost use Rattle.std.specs.Prelude.{◌≡◌, ℕ, List, option_map};
ghost use Rattle.serde_json.specs.View.{view};
ghost use Rattle.yf_json_rpc.specs.Messages.{kind_read};
ghost use Rattle.yf_server.specs.Documents.{find, without_text};
ghost use Rattle.yf_server.specs.Losses.{Loses, LosesAll, LosesText, notified_uri};

use crate::documents::{OpenDocument, lose};
use crate::lifecycle::{Phase, next_step};
use crate::notify::about_uri;
use crate::step::{Server, is_notification, method_of};
use serde_json::Value;
use yf_json_rpc::message::message_of;

/// Returns the URI of the document that a notification is about. Returns `None` for other messages, and for a
/// notification that the server ignores in this phase.
fn notified_uri(phase: Phase, value: &Value) -> Option<&str>
    ensures { option_map (λ uri. uri.now) result ≡ notified_uri phase (view value.now) }
{
    let message = message_of(value);
    if !is_notification(next_step(phase, message).task) {
        return None;
    }
    about_uri(method_of(message), value)
}

/// Drops the text of the document that a notification is about, and returns true. Returns false if the message is no
/// such a notification. The server calls this function if memory runs out in `step`: from then on the client's text
/// differs from the server's.
pub fn lose_notified(server: &mut Server, value: &Value) -> bool
    ensures { Loses server.old server.new (notified_uri server.old.phase (view value.now)) result }
{
    match notified_uri(server.phase, value) {
        None => false,
        Some(uri) => {
            lose(&mut server.documents, uri);
            true
        }
    }
}

/// Drops the text of each document.
fn lose_each(documents: &mut Vec<OpenDocument>)
    ensures { (uri : List ℕ) → find uri documents.new.items ≡ option_map without_text (find uri documents.old.items) }
{
    let mut at = 0;
    while at < documents.len() {
        documents[at].document = None;
        at += 1;
    }
}

/// Drops the text of each document. The server calls this function for content that is not JSON, since it may be a
/// change of any document.
pub fn lose_all(server: &mut Server)
    ensures { LosesAll server.old server.new }
{
    lose_each(&mut server.documents);
}
