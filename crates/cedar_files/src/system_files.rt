ghost use Rattle.std.specs.Prelude.{None};

use crate::fault::FileFault;
use crate::files::Files;
use cedar_io::MAX_INPUT;
use std::alloc::Global;
use std::fs::{File, OpenOptions};
use std::io::{Read, Write};
use std::{fs, io};

/// The files of the system. Its clauses say nothing of what files hold: the system is trusted with that.
#[derive(Drop)]
pub struct SystemFiles<'a> {
    rt: &'a HostRuntime,
}

// The fault that an error of the system is.
fn fault_of(error: &io::Error) -> FileFault {
    match error.kind() {
        io::ErrorKind::NotFound => FileFault::Missing,
        io::ErrorKind::PermissionDenied => FileFault::Denied,
        io::ErrorKind::OutOfMemory => FileFault::Memory,
        _ => FileFault::System,
    }
}

// The folder of a path.
fn folder_of(path: &str) -> &str {
    match path.rsplit_once('/') {
        Some(("", _)) => "/",
        Some((folder, _)) => folder,
        None => ".",
    }
}

// The names of what a folder holds.
fn names_in(rt: &HostRuntime, folder: &str) -> io::Result<Vec<String>> {
    let mut names = Vec::new(rt.alloc());
    for entry in fs::read_dir(rt, folder)? {
        let entry = entry?;
        names.push(format!(in rt.alloc(); "{}", entry.file_name())?)?;
    }
    Ok(names)
}

// At most one byte more of a file than an input may have.
fn read_most(rt: &HostRuntime, path: &str) -> io::Result<Vec<u8>> {
    let mut bytes = Vec::new(rt.alloc());
    File::open(rt, path)?
        .take(MAX_INPUT as u64 + 1)
        .read_to_end(&mut bytes)?;
    Ok(bytes)
}

// Writes a file whole.
fn put(rt: &HostRuntime, path: &str, bytes: &[u8]) -> io::Result<()> {
    let mut file = OpenOptions::new()
        .write(true)
        .create(true)
        .truncate(true)
        .open(rt, path)?;
    file.write_all(bytes)?;
    file.sync_all()
}

// Gives a file another path.
fn rename(rt: &HostRuntime, from: &str, to: &str) -> io::Result<()> {
    fs::rename(rt, from, to)?;
    File::open(rt, folder_of(to))?.sync_all()
}

impl<'a> SystemFiles<'a> {
    /// The files that the runtime reaches. A path that does not begin with `/` begins in the current folder.
    pub fn new(rt: &'a HostRuntime) -> SystemFiles<'a> {
        SystemFiles { rt }
    }
}

impl<'a> Files for SystemFiles<'a> {
    ghost files = { λ _. None };

    fn list(&mut self, _alloc: Global, path: &str) -> Result<Option<Vec<String>>, FileFault> {
        match names_in(self.rt, path) {
            Ok(names) => Ok(Some(names)),
            Err(error) if error.kind() == io::ErrorKind::NotADirectory => Ok(None),
            Err(error) => Err(fault_of(&error)),
        }
    }

    fn read(&mut self, _alloc: Global, path: &str) -> Result<Vec<u8>, FileFault> {
        match read_most(self.rt, path) {
            Ok(bytes) if bytes.len() > MAX_INPUT => Err(FileFault::TooLong),
            Ok(bytes) => Ok(bytes),
            Err(error) => Err(fault_of(&error)),
        }
    }

    fn put(&mut self, path: &str, bytes: &[u8]) -> Result<(), FileFault> {
        put(self.rt, path, bytes).map_err(|error| fault_of(&error))
    }

    fn rename(&mut self, from: &str, to: &str) -> Result<(), FileFault> {
        rename(self.rt, from, to).map_err(|error| fault_of(&error))
    }
}
