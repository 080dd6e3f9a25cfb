//! The state of a file system in memory: everything that happened to its names and inodes, in order.
ghost use Rattle.std.specs.Prelude.{◌≡◌, ◌≤◌, length, option_map, take, is_some, IfSome, OnOk, OnErr, Some};
ghost use Rattle.yf_files.specs.Memory.{LogChanged, CallFails, ContentAdded, IsWell, InodeMade, MomentPasses, changed, entry_of, is_folder, is_regular, node_in, node_of, node_seen, now_of, state_of, target_of};
ghost use Rattle.yf_files.specs.Tree.{at, regular};

use crate::file_system::Failed;
use std::alloc::Global;

/// A name that was assigned to an inode or removed, and another name that was removed with it.
#[derive(Drop)]
pub struct Change {
    pub name: String,
    pub inode: Option<usize>,
    pub freed: String,
}

impl Change {
    /// Returns the inode at a name after the change, given the inode that was there before.
    fn inode_after(&self, name: &str, before: Option<usize>) -> Option<usize>
        ensures { result ≡ changed self.now name.now before }
    {
        if self.name.as_str() == name {
            return self.inode;
        }
        if self.freed.as_str() == name {
            return None;
        }
        before
    }
}

/// The content of an inode.
#[derive(Drop)]
pub enum Held {
    /// A regular file with these bytes.
    Text(Vec<u8>),
    /// A link to this name.
    Link(String),
    /// A folder.
    Folder,
}

/// The content that an inode was given.
#[derive(Drop)]
pub struct FileContent {
    pub inode: usize,
    pub held: Held,
}

/// The lengths of the two logs at a moment, and of their stored parts.
#[derive(Clone, Copy, Drop)]
pub struct Moment {
    pub changes: usize,
    pub contents: usize,
    pub stored_changes: usize,
    pub stored_contents: usize,
}

/// The two logs, the earlier moments, and the current state.
#[derive(Drop)]
pub struct Logs {
    pub changes: Vec<Change>,
    pub contents: Vec<FileContent>,
    pub moments: Vec<Moment>,
    pub stored_changes: usize,
    pub stored_contents: usize,
    /// The next inode. Only those below it were ever at a name.
    pub next: usize,
    /// The inode of the file that was made last.
    pub made: usize,
    /// The number of failed calls that are counted.
    pub failures: usize,
    /// At least 1 if more calls have failed than `failures` can count, otherwise 0.
    pub uncounted: usize,
}

impl Logs {
    /// Returns an empty state.
    pub fn new(alloc: Global) -> Logs
        ensures { IsWell result }
    {
        Logs {
            changes: Vec::new(alloc),
            contents: Vec::new(alloc),
            moments: Vec::new(alloc),
            stored_changes: 0,
            stored_contents: 0,
            next: 0,
            made: 0,
            failures: 0,
            uncounted: 0,
        }
    }

    /// Returns the current lengths of the logs and of their stored parts.
    pub fn now(&self) -> Moment
        ensures { result ≡ now_of self.now }
    {
        Moment {
            changes: self.changes.len(),
            contents: self.contents.len(),
            stored_changes: self.stored_changes,
            stored_contents: self.stored_contents,
        }
    }

    /// Lets a moment pass. Fails if memory is refused, or if `fails_at` is the number of the moment.
    pub fn pass(&mut self, fails_at: usize) -> Result<(), Failed>
        ensures ok { OnOk result (MomentPasses self.old self.new) }
        ensures err { OnErr result (CallFails self.old self.new) }
    {
        let now = self.now();
        if self.moments.len() == fails_at {
            return Err(self.fail());
        }
        match self.moments.push(now) {
            Ok(()) => Ok(()),
            Err(_) => Err(self.fail()),
        }
    }

    /// Counts a failed call.
    pub fn fail(&mut self) -> Failed
        ensures { CallFails self.old self.new }
    {
        if self.failures < usize::MAX {
            self.failures += 1;
        } else {
            self.uncounted = self.uncounted.max(1);
        }
        Failed
    }

    /// Returns the inode at a name after the first `front` changes.
    pub fn inode_at(&self, name: &str, front: usize) -> Option<usize>
        requires { front ≤ length self.now.changes.items }
        ensures { result ≡ entry_of (take front self.now.changes.items) name.now }
    {
        let changes = &self.changes.as_slice()[..front];
        let mut inode = None;
        for change in changes {
            inode = change.inode_after(name, inode);
        }
        inode
    }

    /// Returns the inode that is at a name now.
    pub fn inode_now(&self, name: &str) -> Option<usize>
        ensures { result ≡ entry_of self.now.changes.items name.now }
    {
        self.inode_at(name, self.changes.len())
    }

    /// Returns the last content that an inode was given in the first `front` contents, or `None` if it was given none:
    /// then it is an empty regular file.
    fn held_by(&self, inode: usize, front: usize) -> Option<&Held>
        requires { front ≤ length self.now.contents.items }
        ensures { node_seen result ≡ node_of (take front self.now.contents.items) inode }
    {
        let contents = &self.contents.as_slice()[..front];
        let mut held = None;
        for content in contents {
            if content.inode == inode {
                held = Some(&content.held);
            }
        }
        held
    }

    /// Returns the bytes that the regular file at a name holds now, or `None` if no regular file has the name.
    pub fn text_at(&self, name: &str) -> Option<&[u8]>
        ensures text { IfSome result (λ text. at (state_of self.now) name.now ≡ Some (regular text.now)) }
        ensures is { is_some result ≡ is_regular (at (state_of self.now) name.now) }
    {
        match self.inode_now(name) {
            Some(inode) => self.text_of(inode, self.contents.len()),
            None => None,
        }
    }

    /// Returns the bytes of a regular file after the first `front` contents, or `None` if the inode is no regular file.
    pub fn text_of(&self, inode: usize, front: usize) -> Option<&[u8]>
        requires { front ≤ length self.now.contents.items }
        ensures text { IfSome result (λ text. node_of (take front self.now.contents.items) inode ≡ regular text.now) }
        ensures is { is_some result ≡ is_regular (Some (node_of (take front self.now.contents.items) inode)) }
    {
        match self.held_by(inode, front) {
            Some(Held::Text(bytes)) => Some(bytes.as_slice()),
            Some(Held::Link(_)) => None,
            Some(Held::Folder) => None,
            None => Some(&[]),
        }
    }

    /// Returns the name to which the link at a name leads, or `None` if the name is no link.
    pub fn target_at(&self, name: &str) -> Option<&str>
        ensures { option_map (λ target. target.now) result ≡ target_of (at (state_of self.now) name.now) }
    {
        match self.inode_now(name) {
            Some(inode) => self.target_of(inode),
            None => None,
        }
    }

    /// Returns whether a folder has the name now.
    pub fn has_folder(&self, name: &str) -> bool
        ensures { result ≡ is_folder (at (state_of self.now) name.now) }
    {
        match self.inode_now(name) {
            Some(inode) => self.is_folder(inode),
            None => false,
        }
    }

    // Returns whether an inode is a folder.
    fn is_folder(&self, inode: usize) -> bool
        ensures { result ≡ is_folder (Some (node_of self.now.contents.items inode)) }
    {
        match self.held_by(inode, self.contents.len()) {
            Some(Held::Folder) => true,
            Some(Held::Text(_)) => false,
            Some(Held::Link(_)) => false,
            None => false,
        }
    }

    // Returns the name to which an inode leads, or `None` if the inode is no link.
    fn target_of(&self, inode: usize) -> Option<&str>
        ensures { option_map (λ target. target.now) result
            ≡ target_of (Some (node_of self.now.contents.items inode)) }
    {
        match self.held_by(inode, self.contents.len()) {
            Some(Held::Link(target)) => Some(target.as_str()),
            Some(Held::Text(_)) => None,
            Some(Held::Folder) => None,
            None => None,
        }
    }

    /// Assigns a name to an inode or removes it, and removes the other name.
    pub fn change(
        &mut self,
        alloc: Global,
        name: &str,
        inode: Option<usize>,
        freed: &str,
    ) -> Result<(), Failed>
        ensures ok { OnOk result (LogChanged self.old self.new name.now freed.now inode) }
        ensures err { OnErr result (CallFails self.old self.new) }
    {
        let Ok(name) = String::from_str(alloc, name) else {
            return Err(self.fail());
        };
        let Ok(freed) = String::from_str(alloc, freed) else {
            return Err(self.fail());
        };
        let change = Change { name, inode, freed };
        if self.changes.push(change).is_err() {
            return Err(self.fail());
        }
        Ok(())
    }

    /// Assigns a free name to an unused inode.
    pub fn make(&mut self, alloc: Global, name: &str) -> Result<(), Failed>
        ensures ok { OnOk result (InodeMade self.old self.new name.now) }
        ensures err { OnErr result (CallFails self.old self.new) }
    {
        let inode = self.next;
        if inode == usize::MAX || self.inode_now(name).is_some() {
            return Err(self.fail());
        }
        match self.change(alloc, name, Some(inode), name) {
            Ok(()) => {}
            Err(Failed) => return Err(Failed),
        }
        self.made = inode;
        self.next = inode + 1;
        Ok(())
    }

    /// Gives a file its bytes.
    pub fn give(&mut self, alloc: Global, inode: usize, text: &[u8]) -> Result<(), Failed>
        ensures ok { OnOk result (ContentAdded self.old self.new inode (regular text.now)) }
        ensures err { OnErr result (CallFails self.old self.new) }
    {
        match text.to_vec(alloc) {
            Ok(bytes) => self.be(inode, Held::Text(bytes)),
            Err(_) => Err(self.fail()),
        }
    }

    /// Gives an inode its content.
    pub fn be(&mut self, inode: usize, held: Held) -> Result<(), Failed>
        ensures ok { OnOk result (ContentAdded self.old self.new inode (node_in held)) }
        ensures err { OnErr result (CallFails self.old self.new) }
    {
        let content = FileContent { inode, held };
        if self.contents.push(content).is_err() {
            return Err(self.fail());
        }
        Ok(())
    }
}
