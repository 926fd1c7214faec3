ghost use Rattle.std.specs.Prelude.{◌≡◌, [], ◌∷◌, List, Some, OnOk, OnErr};
ghost use Rattle.std.specs.Option.{option_copied};
ghost use Rattle.cedar_files.specs.Memory.{found, content, is_put, is_moved};
ghost use Rattle.cedar_files.specs.declared.memory_files.Change.{Change};

use crate::fault::FileFault;
use crate::files::Files;
use cedar_data::same_bytes;
use cedar_io::MAX_INPUT;
use std::alloc::{AllocError, Global};

/// A change of files in memory.
#[derive(Drop)]
pub enum Change {
    /// The file with this path was given these bytes.
    Put { path: String, bytes: Vec<u8> },
    /// The file with the path `from` was given the path `to`.
    Moved { from: String, to: String },
}

// Where the content of a file is.
enum Content<'a> {
    // These bytes.
    Here(&'a [u8]),
    // There is no such file.
    Nowhere,
    // That of the file which had this path before the change.
    Before(&'a str),
}

/// Files in memory for tests, of whose calls one may fail.
#[derive(Drop)]
pub struct MemoryFiles {
    alloc: Global,
    /// All changes since there were no files, the last one first.
    pub changes: Vec<Change>,
    calls: u64,
    failing: u64,
}

// The name of a path in the folder, where it is in it.
fn name_in<'a>(folder: &str, path: &'a str) -> Option<&'a str> {
    let name = path.strip_prefix(folder)?.strip_prefix("/")?;
    if name.contains('/') { None } else { Some(name) }
}

// The path that a change gave a file.
fn path_of(change: &Change) -> &str {
    match change {
        Change::Put { path, .. } => path.as_str(),
        Change::Moved { to, .. } => to.as_str(),
    }
}

// Where the content of the file with this path is, by the last change: here, nowhere, or under a path that it had
// before.
fn content_by<'a>(change: &'a Change, sought: &'a str) -> Content<'a>
    ensures { (changes : List Change) → found (change.now ∷ changes) sought.now ≡ content changes result }
{
    match change {
        Change::Put { path, bytes } => {
            if same_bytes(path.as_str(), sought) {
                return Content::Here(bytes.as_slice());
            }
        }
        Change::Moved { from, to } => {
            if same_bytes(to.as_str(), sought) {
                return Content::Before(from.as_str());
            }
            if same_bytes(from.as_str(), sought) {
                return Content::Nowhere;
            }
        }
    }
    Content::Before(sought)
}

// What the file with this path holds after the changes.
fn content_after<'a>(changes: &'a [Change], sought: &'a str) -> Option<&'a [u8]>
    ensures { option_copied result ≡ found changes.now sought.now }
{
    let Some((change, before)) = changes.split_first() else {
        return None;
    };
    match content_by(change, sought) {
        Content::Here(bytes) => Some(bytes),
        Content::Nowhere => None,
        Content::Before(path) => content_after(before, path),
    }
}

impl MemoryFiles {
    /// No files. The call of this number fails; the first is number 1.
    pub fn new(alloc: Global, failing: u64) -> MemoryFiles
        ensures { result.changes.items ≡ [] }
    {
        MemoryFiles {
            alloc,
            changes: Vec::new(alloc),
            calls: 0,
            failing,
        }
    }

    // Counts a call, and says whether it is the one that fails.
    fn is_failing(&mut self) -> bool
        ensures { self.new.changes ≡ self.old.changes }
    {
        self.calls = self.calls.saturating_add(1);
        self.calls == self.failing
    }

    // What the file with this path holds.
    fn find<'a>(&'a self, path: &'a str) -> Option<&'a [u8]>
        ensures { option_copied result ≡ found self.now.changes.items path.now }
    {
        content_after(self.changes.as_slice(), path)
    }

    // The names in the folder, each once.
    fn names_in(&self, alloc: Global, folder: &str) -> Result<Vec<String>, AllocError> {
        let mut names: Vec<String> = Vec::new(alloc);
        for change in self.changes.as_slice() {
            let path = path_of(change);
            if let Some(name) = name_in(folder, path) {
                if self.find(path).is_some() && !names.iter().any(|other| other.as_str() == name) {
                    names.push(String::from_str(alloc, name)?)?;
                }
            }
        }
        Ok(names)
    }

    // Notes that a file was given these bytes.
    fn note_put(&mut self, path: &str, bytes: &[u8]) -> Result<(), AllocError>
        ensures ok { OnOk result
            (found self.new.changes.items ≡ is_put path.now bytes.now (found self.old.changes.items)) }
        ensures err { OnErr result (self.new.changes.items ≡ self.old.changes.items) }
    {
        let path = String::from_str(self.alloc, path)?;
        let bytes = Vec::from_slice(self.alloc, bytes)?;
        self.changes.insert(0, Change::Put { path, bytes })?;
        Ok(())
    }

    // Notes that a file was given another path.
    fn note_move(&mut self, from: &str, to: &str) -> Result<(), AllocError>
        ensures ok { OnOk result
            (found self.new.changes.items ≡ is_moved from.now to.now (found self.old.changes.items)) }
        ensures err { OnErr result (self.new.changes.items ≡ self.old.changes.items) }
    {
        let from = String::from_str(self.alloc, from)?;
        let to = String::from_str(self.alloc, to)?;
        self.changes.insert(0, Change::Moved { from, to })?;
        Ok(())
    }
}

impl Files for MemoryFiles {
    ghost files = { λ s. Some (found s.changes.items) };

    fn list(&mut self, alloc: Global, path: &str) -> Result<Option<Vec<String>>, FileFault> {
        if self.is_failing() {
            return Err(FileFault::System);
        }
        match self.names_in(alloc, path) {
            Ok(names) if names.is_empty() => Ok(None),
            Ok(names) => Ok(Some(names)),
            Err(_) => Err(FileFault::Memory),
        }
    }

    fn read(&mut self, alloc: Global, path: &str) -> Result<Vec<u8>, FileFault> {
        if self.is_failing() {
            return Err(FileFault::System);
        }
        let Some(bytes) = self.find(path) else {
            return Err(FileFault::Missing);
        };
        if bytes.len() > MAX_INPUT {
            return Err(FileFault::TooLong);
        }
        match Vec::from_slice(alloc, bytes) {
            Ok(copy) => Ok(copy),
            Err(_) => Err(FileFault::Memory),
        }
    }

    fn put(&mut self, path: &str, bytes: &[u8]) -> Result<(), FileFault> {
        if self.is_failing() {
            let _ = self.note_put(path, &[]);
            return Err(FileFault::System);
        }
        match self.note_put(path, bytes) {
            Ok(()) => Ok(()),
            Err(_) => Err(FileFault::Memory),
        }
    }

    fn rename(&mut self, from: &str, to: &str) -> Result<(), FileFault> {
        if self.is_failing() {
            return Err(FileFault::System);
        }
        if self.find(from).is_none() {
            return Err(FileFault::Missing);
        }
        match self.note_move(from, to) {
            Ok(()) => Ok(()),
            Err(_) => Err(FileFault::Memory),
        }
    }
}
