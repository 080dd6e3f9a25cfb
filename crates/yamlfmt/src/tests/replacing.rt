//! Files that get another text, in a folder made for the test: the entry at the path of the new file, and each step
//! that fails.

ghost use Rattle.std.specs.Prelude.{⊤};

use crate::tests::failing_files::{FailingFiles, Step};
use std::alloc::Global;
use std::fs::File;
use std::os::unix::fs::symlink;
use std::rt::Files;
use std::{fs, io};
use yf_files::{Formatter, rewrite};
use yf_host::replacing::{Held, SystemFiles, open_regular};

pub const OLD: &str = "- a\n- b\n";

pub const NEW: &str = "---\n- a\n- b\n";

const OTHER: &str = "another text, which is longer than both\n";

/// A folder, and the paths of a file in it, of the new file and of a file beside it.
#[derive(Clone, Copy)]
pub struct Folder {
    pub name: &'static str,
    pub path: &'static str,
    pub new_path: &'static str,
    pub other: &'static str,
}

/// Makes the folder, with the old text in the file, and another text in the file beside it.
pub fn make_folder(rt: &HostRuntime, folder: &Folder) -> io::Result<()> {
    let _ = fs::remove_dir_all(rt, folder.name);
    fs::create_dir(rt, folder.name)?;
    fs::write(rt, folder.path, OLD)?;
    fs::write(rt, folder.other, OTHER)
}

/// The action of another process after the file was read.
#[derive(Clone, Copy)]
pub enum Meanwhile {
    Nothing,
    /// It writes another text over the file.
    Writes,
    /// It replaces the file with a new file.
    Renames,
}

/// A formatter that returns the new text for any text, while another process acts on the file.
#[derive(Clone, Copy)]
struct Gives<'a> {
    rt: &'a HostRuntime,
    path: &'static str,
    meanwhile: Meanwhile,
}

impl Formatter for Gives<'_> {
    type Error = ();

    ghost Formats = { λ _ _ _. ⊤ };

    ghost Refuses = { λ _ _ _. ⊤ };

    fn format(&self, alloc: Global, _bytes: &[u8]) -> Result<String, ()> {
        if change(self.rt, self.path, self.meanwhile).is_err() {
            return Err(());
        }
        match String::from_str(alloc, NEW) {
            Ok(text) => Ok(text),
            Err(_) => Err(()),
        }
    }
}

/// Returns whether the new text replaces the old one, while another process acts on the file.
pub fn is_put<R: Files>(rt: &HostRuntime, files: &R, folder: &Folder, meanwhile: Meanwhile) -> bool
where
    R::File: Held,
{
    let path = folder.path;
    let formatter = Gives {
        rt,
        path,
        meanwhile,
    };
    rewrite(rt.alloc(), &mut SystemFiles::new(files), &formatter, path).is_ok()
}

/// Returns whether a file holds this text.
fn holds(rt: &HostRuntime, path: &str, text: &str) -> bool {
    match &fs::read_to_string(rt, path) {
        Ok(held) => held.as_str() == text,
        Err(_) => false,
    }
}

/// Returns whether the path is a regular file and not a link.
fn is_regular(rt: &HostRuntime, path: &str) -> bool {
    match &fs::symlink_metadata(rt, path) {
        Ok(metadata) => metadata.is_file(),
        Err(_) => false,
    }
}

/// Returns whether the file is a regular one that holds the text, and the file beside it is as it was. `has_new` says
/// whether something must be at the path of the new file.
pub fn is_there(rt: &HostRuntime, folder: &Folder, text: &str, has_new: bool) -> bool {
    let path = folder.path;
    holds(rt, path, text)
        && holds(rt, folder.other, OTHER)
        && is_regular(rt, path)
        && fs::symlink_metadata(rt, folder.new_path).is_ok() == has_new
}

/// Removes the folder, and returns whether that succeeded.
pub fn is_removed(rt: &HostRuntime, folder: &Folder) -> bool {
    fs::remove_dir_all(rt, folder.name).is_ok()
}

/// The entry at the path of the new file before the run.
#[derive(Clone, Copy)]
enum Left {
    Nothing,
    File,
    /// A link to this path.
    Link(&'static str),
    Folder,
    /// A second name of the file beside it.
    SecondName,
}

/// Makes the entry.
fn leave(rt: &HostRuntime, folder: &Folder, left: Left) -> io::Result<()> {
    let path = folder.new_path;
    match left {
        Left::Nothing => Ok(()),
        Left::File => fs::write(rt, path, OTHER),
        Left::Link(target) => symlink(rt, target, path),
        Left::Folder => fs::create_dir(rt, path),
        Left::SecondName => fs::hard_link(rt, folder.other, path),
    }
}

/// A name, the entry at the path of the new file, the step that fails, whether the new text is put into the file, and
/// whether something stays at the path of the new file.
type Row = (&'static str, Left, Step, bool, bool);

static ROWS_FOLDER: Folder = Folder {
    name: "replacing_rows",
    path: "replacing_rows/a.yaml",
    new_path: "replacing_rows/a.yaml.yamlfmt-new",
    other: "replacing_rows/other",
};

/// Returns whether the row holds for that entry and that step: the new text is put into the file or not, and something
/// stays at the path of the new file or not.
fn puts(rt: &HostRuntime, row: &Row) -> bool {
    let (_, left, fails, puts, stays) = *row;
    let folder = &ROWS_FOLDER;
    let files = FailingFiles { host: rt, fails };
    make_folder(rt, folder).is_ok()
        && leave(rt, folder, left).is_ok()
        && is_put(rt, &files, folder, Meanwhile::Nothing) == puts
        && is_there(rt, folder, if puts { NEW } else { OLD }, stays)
        && matches!(fs::exists(rt, "replacing_rows/missing"), Ok(false))
        && is_removed(rt, folder)
}

/// The rows: each entry and each step.
static ROWS: [Row; 18] = [
    // each step fails
    ("hold", Left::Nothing, Step::Hold, false, false),
    ("look", Left::Nothing, Step::Look, false, false),
    ("make", Left::Nothing, Step::Make, false, false),
    ("write", Left::Nothing, Step::Write, false, false),
    ("permit", Left::Nothing, Step::Permit, false, false),
    ("store", Left::Nothing, Step::Store, false, false),
    ("rename", Left::Nothing, Step::Rename, false, false),
    // no step fails, or the file system has no locks
    ("nothing", Left::Nothing, Step::Nothing, true, false),
    ("locks", Left::Nothing, Step::Locks, true, false),
    // a file that another run has left
    ("file", Left::File, Step::Nothing, true, false),
    ("file, remove", Left::File, Step::Remove, false, true),
    ("file, hold", Left::File, Step::Hold, false, true),
    ("file, locks", Left::File, Step::Locks, false, true),
    // the link is removed, and not its target
    ("link", Left::Link("other"), Step::Nothing, true, false),
    (
        "link to the file",
        Left::Link("a.yaml"),
        Step::Nothing,
        true,
        false,
    ),
    (
        "link to nothing",
        Left::Link("missing"),
        Step::Nothing,
        true,
        false,
    ),
    ("folder", Left::Folder, Step::Nothing, false, true),
    ("second name", Left::SecondName, Step::Nothing, true, false),
];

#[test]
fn puts_the_new_text_or_leaves_the_old(rt: HostRuntime) {
    for row in &ROWS {
        assert!(rt; puts(&rt, row), "{}", row.0);
    }
}

/// Returns whether a file stays as it is while another run holds it.
fn leaves_a_held_file(rt: &HostRuntime, folder: &Folder) -> bool {
    match &File::open(rt, folder.path) {
        Ok(first) => {
            matches!(first.hold(), Ok(true))
                && !is_put(rt, rt, folder, Meanwhile::Nothing)
                && is_there(rt, folder, OLD, false)
        }
        Err(_) => false,
    }
}

static SECOND: Folder = Folder {
    name: "replacing_second",
    path: "replacing_second/a.yaml",
    new_path: "replacing_second/a.yaml.yamlfmt-new",
    other: "replacing_second/other",
};

/// Returns whether a run leaves a file that another one holds, and rewrites it later.
fn waits_for_another_run(rt: &HostRuntime) -> bool {
    make_folder(rt, &SECOND).is_ok()
        && leaves_a_held_file(rt, &SECOND)
        && is_put(rt, rt, &SECOND, Meanwhile::Nothing)
        && is_removed(rt, &SECOND)
}

/// Does this action to the file at the path.
fn change(rt: &HostRuntime, path: &str, meanwhile: Meanwhile) -> io::Result<()> {
    match meanwhile {
        Meanwhile::Nothing => Ok(()),
        Meanwhile::Writes => fs::write(rt, path, OTHER),
        Meanwhile::Renames => {
            fs::write(rt, "replacing_changed/b.yaml", OTHER)?;
            fs::rename(rt, "replacing_changed/b.yaml", path)
        }
    }
}

static CHANGED: Folder = Folder {
    name: "replacing_changed",
    path: "replacing_changed/a.yaml",
    new_path: "replacing_changed/a.yaml.yamlfmt-new",
    other: "replacing_changed/other",
};

/// Returns whether a run doesn't touch a file that was written or replaced after it was read.
fn leaves_a_changed_file(rt: &HostRuntime, meanwhile: Meanwhile) -> bool {
    make_folder(rt, &CHANGED).is_ok()
        && !is_put(rt, rt, &CHANGED, meanwhile)
        && is_there(rt, &CHANGED, OTHER, false)
        && is_removed(rt, &CHANGED)
}

#[test]
fn leaves_what_others_hold_or_change(rt: HostRuntime) {
    assert!(rt; waits_for_another_run(&rt));
    assert!(rt; leaves_a_changed_file(&rt, Meanwhile::Writes));
    assert!(rt; leaves_a_changed_file(&rt, Meanwhile::Renames));
}

/// Paths, and whether the file at the path is opened.
static OPENED: [(&str, bool); 5] = [
    ("replacing_kinds/a.yaml", true),
    ("replacing_kinds/link", true),
    ("replacing_kinds", false),
    ("replacing_kinds/missing", false),
    ("/dev/null", false),
];

static KINDS: Folder = Folder {
    name: "replacing_kinds",
    path: "replacing_kinds/a.yaml",
    new_path: "replacing_kinds/a.yaml.yamlfmt-new",
    other: "replacing_kinds/other",
};

/// Makes a folder with a link to its file.
fn make_link(rt: &HostRuntime) -> io::Result<()> {
    make_folder(rt, &KINDS)?;
    symlink(rt, "a.yaml", "replacing_kinds/link")
}

#[test]
fn opens_regular_files_alone(rt: HostRuntime) {
    assert!(rt; make_link(&rt).is_ok());
    for (path, wanted) in &OPENED {
        assert!(rt; open_regular(&rt, path).is_ok() == *wanted, "{path}");
    }
    assert!(rt; is_removed(&rt, &KINDS));
}
