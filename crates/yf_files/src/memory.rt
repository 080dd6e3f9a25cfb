//! A file system in memory, which can be stopped at any moment.
ghost use Rattle.std.specs.Prelude.{◌≡◌, ℕ, option_map, take, Some, IfOk, IfSome, IsErrOf, OnErr, OnOk, ⊤};
ghost use Rattle.yf_files.specs.Calls.{HasFailed, Stays};
ghost use Rattle.yf_files.specs.Memory.{CallFails, IsWell, MomentPasses, entry_of, folder, is_regular, link_to, node_in, node_of, state_of};
ghost use Rattle.yf_files.specs.Tree.{TimePasses, at, regular};

use crate::file_system::{Failed, FileSystem, ReadError};
use crate::logs::{Held, Logs, Moment};
use std::alloc::Global;

/// The greatest number of links that are followed from one name, as on Linux.
pub const LINKS: usize = 40;

/// Files in memory, with folders and links, and everything that happened to them.
///
/// A name is a whole path. A link leads to a name, and there may be nothing at that name.
///
/// At a stop it loses what a real file system may lose: the changes of names and of contents that were not stored, each
/// from some step on. A write takes two steps.
#[derive(Drop)]
pub struct MemoryFiles {
    alloc: Global,
    logs: Logs,
    fails_at: usize,
    ghost well: { IsWell logs },
}

impl MemoryFiles {
    ghost use Rattle.yf_files.specs.Links.{NodeMade, led, memory_state};

    /// Returns a file system without files. The call with the number `fails_at`, from 0, fails. No other call does.
    pub fn new(alloc: Global, fails_at: usize) -> MemoryFiles {
        MemoryFiles {
            alloc,
            logs: Logs::new(alloc),
            fails_at,
        }
    }

    /// Returns the number of this moment.
    pub fn moment(&self) -> usize {
        self.logs.moments.len()
    }

    /// Returns the lengths of the logs at a moment, and of their stored parts.
    pub fn at_moment(&self, moment: usize) -> Moment {
        match self.logs.moments.get(moment) {
            Some(past) => *past,
            None => self.logs.now(),
        }
    }

    /// Returns the bytes of the regular file at a name after a stop that leaves these prefixes of the logs.
    pub fn found(&self, name: &str, changes: usize, contents: usize) -> Option<&[u8]>
        ensures { IfSome result (λ text. (i : ℕ) × (entry_of (take changes self.now.logs.changes.items) name.now ≡ Some i)
            × (node_of (take contents self.now.logs.contents.items) i ≡ regular text.now)) }
    {
        if changes > self.logs.changes.len() || contents > self.logs.contents.len() {
            return None;
        }
        match self.logs.inode_at(name, changes) {
            Some(inode) => self.logs.text_of(inode, contents),
            None => None,
        }
    }

    /// Returns whether a regular file has the name.
    pub fn has_file(&self, name: &str) -> bool
        ensures { result ≡ is_regular (at (memory_state self.now) name.now) }
    {
        self.logs.text_at(name).is_some()
    }

    /// Returns the name to which a name leads: the name itself if it is no link. Returns `None` if there are more than
    /// `LINKS` links on the way.
    pub fn led<'a>(&'a self, name: &'a str) -> Option<&'a str>
        ensures { option_map (λ file. file.now) result ≡ led (memory_state self.now) LINKS name.now }
    {
        let mut at = name;
        let mut left = LINKS;
        while let Some(target) = self.logs.target_at(at) {
            if left == 0 {
                return None;
            }
            left -= 1;
            at = target;
        }
        Some(at)
    }

    /// Makes a link at a free name. It leads to the other name, which may be free.
    pub fn link(&mut self, name: &str, target: &str) -> Result<(), Failed>
        ensures { OnOk result (NodeMade (memory_state self.old) (memory_state self.new) name.now (link_to target.now)) }
    {
        match String::from_str(self.alloc, target) {
            Ok(target) => self.make_as(name, Held::Link(target)),
            Err(_) => {
                let Failed = self.logs.fail();
                Err(Failed)
            }
        }
    }

    /// Makes a folder at a free name.
    pub fn folder(&mut self, name: &str) -> Result<(), Failed>
        ensures { OnOk result (NodeMade (memory_state self.old) (memory_state self.new) name.now folder) }
    {
        self.make_as(name, Held::Folder)
    }

    // Makes an inode with this content at a free name.
    fn make_as(&mut self, name: &str, held: Held) -> Result<(), Failed>
        ensures { OnOk result (NodeMade (memory_state self.old) (memory_state self.new) name.now (node_in held)) }
    {
        match self.begin() {
            Ok(()) => {}
            Err(Failed) => return Err(Failed),
        }
        match self.logs.make(self.alloc, name) {
            Ok(()) => {}
            Err(Failed) => return Err(Failed),
        }
        let made = self.logs.made;
        match self.logs.be(made, held) {
            Ok(()) => Ok(()),
            Err(Failed) => Err(Failed),
        }
    }

    // Begins a call: a moment passes, or the call fails.
    fn begin(&mut self) -> Result<(), Failed>
        ensures ok { OnOk result (MomentPasses self.old.logs self.new.logs) }
        ensures err { OnErr result (CallFails self.old.logs self.new.logs) }
    {
        match self.logs.pass(self.fails_at) {
            Ok(()) => Ok(()),
            Err(Failed) => {
                self.fails_at = usize::MAX;
                Err(Failed)
            }
        }
    }

    // Makes a call that changes nothing.
    fn pass(&mut self) -> Result<(), Failed>
        ensures stays { Stays (state_of self.old.logs) (state_of self.new.logs) }
        ensures cause { OnErr result (HasFailed (state_of self.old.logs) (state_of self.new.logs)) }
        ensures time { TimePasses (state_of self.old.logs) (state_of self.new.logs) }
    {
        match self.begin() {
            Ok(()) => Ok(()),
            Err(Failed) => Err(Failed),
        }
    }
}

impl FileSystem for MemoryFiles {
    ghost use Rattle.yf_files.specs.MemoryLaws.{sound_of};

    ghost tells = { ⊤ };

    ghost state = { λ files. state_of files.logs };

    ghost sound = { λ files _. sound_of files.logs files.well };

    fn read(&mut self, alloc: Global, name: &str) -> Result<Vec<u8>, ReadError> {
        match self.begin() {
            Ok(()) => {}
            Err(Failed) => return Err(ReadError::Failed),
        }
        match self.logs.text_at(name) {
            Some(text) => copied(alloc, text),
            None => {
                let Failed = self.logs.fail();
                Err(ReadError::Failed)
            }
        }
    }

    fn lock(&mut self) -> Result<(), Failed> {
        self.pass()
    }

    fn confirm(&mut self, _name: &str) -> Result<(), Failed> {
        self.pass()
    }

    fn remove(&mut self, name: &str) -> Result<(), Failed> {
        match self.begin() {
            Ok(()) => {}
            Err(Failed) => return Err(Failed),
        }
        if self.logs.has_folder(name) {
            return Err(self.logs.fail());
        }
        match self.logs.change(self.alloc, name, None, name) {
            Ok(()) => Ok(()),
            Err(Failed) => Err(Failed),
        }
    }

    fn make(&mut self, name: &str) -> Result<(), Failed> {
        match self.begin() {
            Ok(()) => {}
            Err(Failed) => return Err(Failed),
        }
        match self.logs.make(self.alloc, name) {
            Ok(()) => Ok(()),
            Err(Failed) => Err(Failed),
        }
    }

    fn write(&mut self, bytes: &[u8]) -> Result<(), Failed> {
        match self.begin() {
            Ok(()) => {}
            Err(Failed) => return Err(Failed),
        }
        let made = self.logs.made;
        match self.logs.give(self.alloc, made, &bytes[..bytes.len() / 2]) {
            Ok(()) => {}
            Err(Failed) => return Err(Failed),
        }
        match self.logs.give(self.alloc, made, bytes) {
            Ok(()) => Ok(()),
            Err(Failed) => Err(Failed),
        }
    }

    fn adopt(&mut self) -> Result<(), Failed> {
        self.pass()
    }

    fn store(&mut self) -> Result<(), Failed> {
        match self.begin() {
            Ok(()) => {}
            Err(Failed) => return Err(Failed),
        }
        self.logs.stored_contents = self.logs.contents.len();
        Ok(())
    }

    fn rename(&mut self, from: &str, to: &str) -> Result<(), Failed> {
        match self.begin() {
            Ok(()) => {}
            Err(Failed) => return Err(Failed),
        }
        if self.logs.has_folder(to) {
            return Err(self.logs.fail());
        }
        let inode = self.logs.inode_now(from);
        match self.logs.change(self.alloc, to, inode, from) {
            Ok(()) => Ok(()),
            Err(Failed) => Err(Failed),
        }
    }

    fn store_folder(&mut self, _name: &str) -> Result<(), Failed> {
        match self.begin() {
            Ok(()) => {}
            Err(Failed) => return Err(Failed),
        }
        self.logs.stored_changes = self.logs.changes.len();
        Ok(())
    }
}

// Returns a copy of a text.
fn copied(alloc: Global, text: &[u8]) -> Result<Vec<u8>, ReadError>
    ensures ok { IfOk result (λ bytes. bytes.items ≡ text.now) }
    ensures err { IsErrOf result ReadError.Failed → ⊥ }
{
    match text.to_vec(alloc) {
        Ok(bytes) => Ok(bytes),
        Err(_) => Err(ReadError::Memory),
    }
}
