//! Files that are rewritten, in a folder made for the test.

use crate::tests::answers::{is_true, whole_text};
use crate::tests::failing_files::{FailingFiles, Step};
use std::fs::Permissions;
use std::os::unix::fs::{MetadataExt, PermissionsExt, symlink};
use std::rt::Files;
use std::{fs, io};
use yf_files::{ReplaceError, RewriteError};
use yf_forms::style::Style;
use yf_host::files::rewrite;
use yf_host::guarded_text::NoNewText;
use yf_host::replacing::{Held, SystemFiles};
use yf_lines::fault::Fault;

/// Makes an empty folder.
fn make_folder(rt: &HostRuntime, folder: &str) -> io::Result<()> {
    let _ = fs::remove_dir_all(rt, folder);
    fs::create_dir(rt, folder)
}

/// The result for a file.
#[derive(Clone, Copy)]
enum Answer {
    Rewritten,
    Syntax,
    ReadFailed,
    WriteFailed,
    /// The new file is left.
    Left,
    /// The new text may not survive a crash.
    Unsure,
}

/// Returns whether this is the result.
fn is_answer(answer: &Result<(), RewriteError<NoNewText>>, wanted: Answer) -> bool {
    match (answer, wanted) {
        (Ok(()), Answer::Rewritten) => true,
        (Err(RewriteError::Refused(NoNewText::Refused(Fault::Syntax { .. }))), Answer::Syntax) =>
            true,
        (Err(RewriteError::Unreadable), Answer::ReadFailed) => true,
        (Err(RewriteError::Unwritten(error)), wanted) => match (error, wanted) {
            (ReplaceError::Untouched, Answer::WriteFailed) => true,
            (ReplaceError::Left, Answer::Left) => true,
            (ReplaceError::Unsure, Answer::Unsure) => true,
            _ => false,
        },
        _ => false,
    }
}

/// Returns whether rewriting the file at the path in the house style has this result.
fn answers<R: Files + Drop>(rt: &HostRuntime, files: R, path: &str, wanted: Answer) -> bool
where
    R::File: Held,
{
    let mut files = SystemFiles::new(files);
    let style = Style::house();
    is_answer(
        &rewrite(rt.alloc(), &mut files, path, &whole_text(&style)),
        wanted,
    )
}

const PATH: &str = "yamlfmt_rewrites/a.yaml";

const NEW_PATH: &str = "yamlfmt_rewrites/a.yaml.yamlfmt-new";

/// Returns whether the file has this text.
fn has_text(rt: &HostRuntime, text: &str) -> bool {
    match &fs::read_to_string(rt, PATH) {
        Ok(held) => held.as_str() == text,
        Err(_) => false,
    }
}

/// The text of a file, its permissions, whether another run has left a new file, the step that fails, the result, and
/// the text of the file afterwards.
type Row = (&'static str, u32, bool, Step, Answer, &'static str);

/// Returns whether rewriting a file has this result, and both paths then have the right contents. The file keeps its
/// permissions. If its text stays, it is still the same inode.
fn ends_with(rt: &HostRuntime, row: &Row) -> io::Result<bool> {
    let (old, mode, is_left, fails, wanted, new) = *row;
    make_folder(rt, "yamlfmt_rewrites")?;
    fs::write(rt, PATH, old)?;
    fs::set_permissions(rt, PATH, Permissions::from_mode(mode))?;
    if is_left {
        fs::write(rt, NEW_PATH, [b'x'; 100].as_slice())?;
    }
    let before = fs::metadata(rt, PATH)?.ino();
    let is_answered = match fails {
        Step::Nothing => answers(rt, rt, PATH, wanted),
        _ => answers(rt, FailingFiles { host: rt, fails }, PATH, wanted),
    };
    let after = fs::metadata(rt, PATH)?;
    let is_kept = after.permissions().mode() & 0o777 == mode
        && (after.ino() == before) == (old == new);
    let has_new = fs::exists(rt, NEW_PATH)?;
    Ok(is_answered && is_kept && has_text(rt, new) && has_new == matches!(wanted, Answer::Left))
}

static ROWS: [Row; 12] = [
    // a text that is refused
    (
        "a: b: c\n",
        0o644,
        false,
        Step::Nothing,
        Answer::Syntax,
        "a: b: c\n",
    ),
    // the new file fails
    (
        "- a\n- b\n",
        0o644,
        false,
        Step::Make,
        Answer::WriteFailed,
        "- a\n- b\n",
    ),
    (
        "- a\n- b\n",
        0o644,
        false,
        Step::Write,
        Answer::WriteFailed,
        "- a\n- b\n",
    ),
    (
        "- a\n- b\n",
        0o644,
        false,
        Step::Rename,
        Answer::WriteFailed,
        "- a\n- b\n",
    ),
    // it can be neither renamed nor removed
    (
        "- a\n- b\n",
        0o644,
        false,
        Step::RenameAndRemove,
        Answer::Left,
        "- a\n- b\n",
    ),
    // the folder can't be stored
    (
        "- a\n- b\n",
        0o644,
        false,
        Step::StoreFolder,
        Answer::Unsure,
        "---\n- a\n- b\n",
    ),
    // one run, and two runs
    (
        "- a\n- b\n",
        0o644,
        false,
        Step::Nothing,
        Answer::Rewritten,
        "---\n- a\n- b\n",
    ),
    (
        "---\n- a\n- b\n",
        0o644,
        false,
        Step::Nothing,
        Answer::Rewritten,
        "---\n- a\n- b\n",
    ),
    // no new file is made
    (
        "---\n- a\n- b\n",
        0o644,
        false,
        Step::Make,
        Answer::Rewritten,
        "---\n- a\n- b\n",
    ),
    // over what another run left
    (
        "- a\n- b\n",
        0o640,
        true,
        Step::Nothing,
        Answer::Rewritten,
        "---\n- a\n- b\n",
    ),
    // nobody may write to the file; a file in the house style needs no writing
    (
        "- a\n",
        0o444,
        false,
        Step::Nothing,
        Answer::WriteFailed,
        "- a\n",
    ),
    (
        "---\n- a\n",
        0o444,
        false,
        Step::Nothing,
        Answer::Rewritten,
        "---\n- a\n",
    ),
];

/// Returns whether a link stays, and the file to which it leads is rewritten in its own folder.
fn follows_links(rt: &HostRuntime) -> io::Result<bool> {
    make_folder(rt, "yamlfmt_rewrites")?;
    fs::create_dir(rt, "yamlfmt_rewrites/links")?;
    fs::write(rt, PATH, "- a\n- b\n")?;
    symlink(rt, "../a.yaml", "yamlfmt_rewrites/links/b.yaml")?;
    symlink(rt, "b.yaml", "yamlfmt_rewrites/links/c.yaml")?;
    let is_rewritten = answers(rt, rt, "yamlfmt_rewrites/links/c.yaml", Answer::Rewritten);
    let is_link = fs::symlink_metadata(rt, "yamlfmt_rewrites/links/c.yaml")?.is_symlink()
        && fs::symlink_metadata(rt, "yamlfmt_rewrites/links/b.yaml")?.is_symlink();
    let is_alone = !fs::exists(rt, "yamlfmt_rewrites/links/c.yaml.yamlfmt-new")?
        && !fs::exists(rt, NEW_PATH)?;
    Ok(is_rewritten && is_link && is_alone && has_text(rt, "---\n- a\n- b\n"))
}

/// Returns whether a link that leads nowhere is refused.
fn refuses_a_broken_link(rt: &HostRuntime) -> io::Result<bool> {
    make_folder(rt, "yamlfmt_rewrites")?;
    symlink(rt, "missing", PATH)?;
    Ok(answers(rt, rt, PATH, Answer::ReadFailed) && !fs::exists(rt, NEW_PATH)?)
}

#[test]
fn rewrites_files_or_leaves_them(rt: HostRuntime) {
    for row in &ROWS {
        assert!(rt; is_true(&ends_with(&rt, row)), "{}", row.0);
    }
    assert!(rt; is_true(&follows_links(&rt)));
    assert!(rt; is_true(&refuses_a_broken_link(&rt)));
    assert!(rt; fs::remove_dir_all(&rt, "yamlfmt_rewrites").is_ok());
}

/// Paths that are not regular files, and paths at which nothing may be afterwards.
static NO_FILES: [(&str, &str); 3] = [
    ("yamlfmt_kinds", "yamlfmt_kinds.yamlfmt-new"),
    ("/dev/null", "yamlfmt_kinds.yamlfmt-new"),
    ("yamlfmt_kinds/b.yaml", "yamlfmt_kinds/b.yaml"),
];

/// Returns whether a path is not a regular file, and nothing is at the other path afterwards.
fn is_no_file(rt: &HostRuntime, path: &str, missing: &str) -> bool {
    answers(rt, rt, path, Answer::ReadFailed) && matches!(fs::exists(rt, missing), Ok(false))
}

#[test]
fn refuses_what_is_no_regular_file(rt: HostRuntime) {
    assert!(rt; make_folder(&rt, "yamlfmt_kinds").is_ok());
    for (path, missing) in &NO_FILES {
        assert!(rt; is_no_file(&rt, path, missing), "{path}");
    }
    assert!(rt; fs::remove_dir_all(&rt, "yamlfmt_kinds").is_ok());
}
