//! The owner and the permissions of files that get another text, in a folder made for the test.

use crate::tests::failing_files::{FailingFiles, Step};
use crate::tests::replacing::{
    Folder, Meanwhile, NEW, OLD, is_put, is_removed, is_there, make_folder,
};
use std::fs::Permissions;
use std::os::unix::fs::{MetadataExt, PermissionsExt, chown};
use std::{fs, io};
use yf_host::replacing::mode_of;

/// Returns the permissions of a file after it was rewritten, given those before.
fn mode_in(rt: &HostRuntime, folder: &Folder, mode: u32) -> io::Result<u32> {
    let path = folder.path;
    fs::set_permissions(rt, path, Permissions::from_mode(mode))?;
    if !is_put(rt, rt, folder, Meanwhile::Nothing) {
        return Err(io::Error::from(io::ErrorKind::Other));
    }
    Ok(fs::metadata(rt, path)?.mode() & 0o7777)
}

static BITS: Folder = Folder {
    name: "replacing_bits",
    path: "replacing_bits/a.yaml",
    new_path: "replacing_bits/a.yaml.yamlfmt-new",
    other: "replacing_bits/other",
};

/// Returns whether a file that had the permissions `mode` has the permissions `wanted` after it was rewritten.
fn has_mode_after(rt: &HostRuntime, mode: u32, wanted: u32) -> bool {
    make_folder(rt, &BITS).is_ok()
        && matches!(mode_in(rt, &BITS, mode), Ok(after) if after == wanted)
        && is_removed(rt, &BITS)
}

/// Permissions, whether the new file has the group of the old one, and its permissions.
static MODES: [(u32, bool, u32); 3] = [
    (0o104_755, true, 0o755),
    (0o100_664, false, 0o644),
    (0o100_640, false, 0o600),
];

#[test]
fn set_user_bits_go(rt: HostRuntime) {
    assert!(rt; has_mode_after(&rt, 0o6751, 0o751));
    for (mode, has_group, wanted) in &MODES {
        assert!(rt; mode_of(*mode, *has_group) == *wanted, "{wanted}");
    }
}

/// Gives the file to another user, and returns whether the new text is put into it although a step fails.
fn put_in_place_of_another(rt: &HostRuntime, folder: &Folder, fails: Step) -> io::Result<bool> {
    fs::set_permissions(rt, folder.path, Permissions::from_mode(0o640))?;
    chown(rt, folder.path, Some(1234), Some(2345))?;
    let files = FailingFiles { host: rt, fails };
    Ok(is_put(rt, &files, folder, Meanwhile::Nothing))
}

/// Returns whether the file is that user's, with its permissions.
fn is_of_another(rt: &HostRuntime, path: &str) -> bool {
    match &fs::metadata(rt, path) {
        Ok(metadata) => {
            metadata.uid() == 1234 && metadata.gid() == 2345 && metadata.mode() & 0o777 == 0o640
        }
        Err(_) => false,
    }
}

static OWNER: Folder = Folder {
    name: "replacing_owner",
    path: "replacing_owner/a.yaml",
    new_path: "replacing_owner/a.yaml.yamlfmt-new",
    other: "replacing_owner/other",
};

/// Returns whether owner, group and permissions stay. If the new file can't be given away, the old one stays.
fn keeps_owner(rt: &HostRuntime, fails: Step, puts: bool) -> bool {
    make_folder(rt, &OWNER).is_ok()
        && matches!(put_in_place_of_another(rt, &OWNER, fails), Ok(is_put) if is_put == puts)
        && is_there(rt, &OWNER, if puts { NEW } else { OLD }, false)
        && is_of_another(rt, OWNER.path)
        && is_removed(rt, &OWNER)
}

static OWN: Folder = Folder {
    name: "replacing_own",
    path: "replacing_own/a.yaml",
    new_path: "replacing_own/a.yaml.yamlfmt-new",
    other: "replacing_own/other",
};

/// Returns whether a file may be given away. Only root may do that.
fn may_give(rt: &HostRuntime) -> bool {
    chown(rt, OWN.path, Some(1234), Some(2345)).is_ok()
}

#[test]
fn owner_and_group_stay(rt: HostRuntime) {
    assert!(rt; make_folder(&rt, &OWN).is_ok());
    if may_give(&rt) {
        assert!(rt; keeps_owner(&rt, Step::Nothing, true));
        assert!(rt; keeps_owner(&rt, Step::Give, false));
    }
    assert!(rt; is_removed(&rt, &OWN));
}
