//! A file in memory that is rewritten. Each call fails once, and the run or the machine stops at each moment.

use crate::tests::answers::whole_text;
use std::alloc::Global;
use yf_files::{FileSystem, MemoryFiles, ReplaceError, RewriteError};
use yf_forms::style::Style;
use yf_host::files::{rewrite, rewrite_in};
use yf_host::guarded_text::NoNewText;

const FILE: &str = "folder/a.yaml";

const NEW_NAME: &str = "folder/a.yaml.yamlfmt-new";

const OLD: &str = "- a\n- b\n";

const NEW: &str = "---\n- a\n- b\n";

const OTHER: &str = "what another run has left";

/// The texts that a file may hold after a stop.
#[derive(Clone, Copy)]
struct Allowed {
    old: bool,
    new: bool,
}

impl Allowed {
    /// Returns whether the text is one of them.
    fn has(self, text: Option<&[u8]>) -> bool {
        match text {
            Some(text) => {
                self.old && text == OLD.as_bytes() || self.new && text == NEW.as_bytes()
            }
            None => false,
        }
    }
}

/// Returns whether a stop that leaves this prefix of the names, and any prefix of the contents, leaves only an allowed
/// text.
fn leaves_by(files: &MemoryFiles, moment: usize, changes: usize, allowed: Allowed) -> bool {
    let there = files.at_moment(moment);
    for contents in there.stored_contents..=there.contents {
        if !allowed.has(files.found(FILE, changes, contents)) {
            return false;
        }
    }
    true
}

/// Returns whether a stop at a moment leaves only an allowed text.
fn leaves(files: &MemoryFiles, moment: usize, allowed: Allowed) -> bool {
    let there = files.at_moment(moment);
    for changes in there.stored_changes..=there.changes {
        if !leaves_by(files, moment, changes, allowed) {
            return false;
        }
    }
    true
}

/// Returns whether a stop at any moment from `first` on leaves the old text or the new one, whole.
fn leaves_either(files: &MemoryFiles, first: usize) -> bool {
    for moment in first..=files.moment() {
        if !leaves(
            files,
            moment,
            Allowed {
                old: true,
                new: true,
            },
        ) {
            return false;
        }
    }
    true
}

/// Makes a file that holds a text, which survives a crash.
fn put(files: &mut MemoryFiles, name: &str, text: &str) -> bool {
    files.make(name).is_ok()
        && files.write(text.as_bytes()).is_ok()
        && files.store().is_ok()
        && files.store_folder(name).is_ok()
}

/// Returns whether nothing is left of a new file, or the result reports it.
fn is_told(files: &MemoryFiles, answer: &Result<(), RewriteError<NoNewText>>) -> bool {
    let now = files.at_moment(files.moment());
    match files.found(NEW_NAME, now.changes, now.contents) {
        None => true,
        Some(text) if text == OTHER.as_bytes() => true,
        Some(_) => matches!(answer, Err(RewriteError::Unwritten(ReplaceError::Left))),
    }
}

/// Returns the texts that may be found at the end after this result.
fn allowed_after(answer: &Result<(), RewriteError<NoNewText>>) -> Allowed {
    match answer {
        Ok(()) => Allowed {
            old: false,
            new: true,
        },
        Err(RewriteError::Unwritten(ReplaceError::Unsure)) => Allowed {
            old: true,
            new: true,
        },
        Err(_) => Allowed {
            old: true,
            new: false,
        },
    }
}

/// The number of calls of a run without a failing call.
const CALLS: usize = 11;

/// Returns whether a file is rewritten as promised if the call with this number fails. `is_left` says whether another
/// run has left a new file.
fn is_rewritten(alloc: Global, call: usize, is_left: bool) -> bool {
    let made = if is_left { 8 } else { 4 };
    let mut files = MemoryFiles::new(alloc, call.wrapping_add(made));
    if !put(&mut files, FILE, OLD) || is_left && !put(&mut files, NEW_NAME, OTHER) {
        return false;
    }
    let first = files.moment();
    let style = Style::house();
    let answer = rewrite_in(alloc, &mut files, FILE, &whole_text(&style));
    leaves_either(&files, first)
        && leaves(&files, files.moment(), allowed_after(&answer))
        && is_told(&files, &answer)
        && answer.is_ok() == (call >= CALLS)
}

#[test]
fn stops_leave_the_old_text_or_the_new_one(rt: HostRuntime) {
    for call in 0..=CALLS {
        assert!(rt; is_rewritten(rt.alloc(), call, false), "{call}");
        assert!(rt; is_rewritten(rt.alloc(), call, true), "{call}");
    }
}

/// Makes a folder with the file in it, and links to both, to a free name, and to itself.
fn put_links(files: &mut MemoryFiles) -> bool {
    files.folder("folder").is_ok()
        && put(files, FILE, OLD)
        && files.link("first", "second").is_ok()
        && files.link("second", FILE).is_ok()
        && files.link("to folder", "folder").is_ok()
        && files.link("to nothing", "nothing").is_ok()
        && files.link("to itself", "to itself").is_ok()
}

/// Returns whether a name leads to no file that can be rewritten.
fn is_unreadable(alloc: Global, files: &mut MemoryFiles, name: &str) -> bool {
    let style = Style::house();
    matches!(
        rewrite(alloc, files, name, &whole_text(&style)),
        Err(RewriteError::Unreadable)
    )
}

#[test]
fn links_are_followed(rt: HostRuntime) {
    let mut files = MemoryFiles::new(rt.alloc(), usize::MAX);
    assert!(rt; put_links(&mut files));
    for name in ["folder", "to folder", "to nothing", "to itself"] {
        assert!(rt; is_unreadable(rt.alloc(), &mut files, name), "{name}");
    }
    let style = Style::house();
    assert!(rt; rewrite(rt.alloc(), &mut files, "first", &whole_text(&style)).is_ok());
    let now = files.at_moment(files.moment());
    assert!(rt; files.found(FILE, now.changes, now.contents) == Some(NEW.as_bytes()));
    assert!(rt; files.led("first") == Some(FILE));
}
