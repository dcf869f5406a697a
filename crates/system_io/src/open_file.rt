//! Opens and locks a file.

ghost use Rattle.std.specs.Prelude.{◌≡◌, IfOk};

use crate::cause::Cause;
use crate::people::People;
use std::fs::{self, File, OpenOptions, TryLockError};
use std::io::{self, ErrorKind};
use std::os::fd::AsRawFd;
use std::os::unix::fs::{MetadataExt, OpenOptionsExt};

/// How often a file that somebody else makes or takes away meanwhile is looked for.
const TRIES: u8 = 4;

/// A file that is made is its user's alone: who may open a file may lock it, and keep this program out.
const MODE: u32 = 0o600;

/// A file of the folder that the program runs in, which nobody else has locked.
#[derive(Drop)]
pub(crate) struct HeldFile {
    pub(crate) name: &'static str,
    pub(crate) file: File,
    /// Whether it was made just now.
    pub(crate) is_new: bool,
}

/// What another file took the place of, while it was opened.
const REPLACED: &str = "another file took its place while it was opened";

/// Tells people why a file isn't taken.
fn refused(people: &People<'_>, name: &'static str, text: &'static str) -> io::Error {
    people.tell(Cause::Odd { thing: name, text });
    ErrorKind::Unsupported.into()
}

/// What stands at the name: a plain file, or nothing. A link isn't followed.
fn is_there(rt: &HostRuntime, people: &People<'_>, name: &'static str) -> io::Result<bool> {
    match fs::symlink_metadata(rt, name) {
        Ok(found) if found.is_file() => Ok(true),
        Ok(found) => {
            let text = if found.is_symlink() {
                "it is a link, and only a file is taken"
            } else {
                "it is no plain file"
            };
            Err(refused(people, name, text))
        }
        Err(error) if error.kind() == ErrorKind::NotFound => Ok(false),
        Err(error) => people.heard(name, "look at it", Err(error)),
    }
}

/// Opens the file that is there, or makes one where there is none. At None it went away, or came, meanwhile.
fn open_or_make(rt: &HostRuntime, name: &str, is_there: bool) -> io::Result<Option<File>> {
    let opened = OpenOptions::new()
        .read(true)
        .write(true)
        .create_new(!is_there)
        .mode(MODE)
        .open(rt, name);
    match opened {
        Ok(file) => Ok(Some(file)),
        Err(error) if error.kind() == ErrorKind::NotFound && is_there => Ok(None),
        Err(error) if error.kind() == ErrorKind::AlreadyExists => Ok(None),
        Err(error) => Err(error),
    }
}

/// Opens a file, or makes it empty where it is absent, and says whether it was made.
fn open(rt: &HostRuntime, people: &People<'_>, name: &'static str) -> io::Result<(File, bool)> {
    for _ in 0..TRIES {
        let is_there = is_there(rt, people, name)?;
        let opened = open_or_make(rt, name, is_there);
        if let Some(file) = people.heard(name, "open", opened)? {
            return Ok((file, !is_there));
        }
    }
    Err(refused(people, name, REPLACED))
}

/// What is meant for a standard stream that was closed must not land in the file.
fn beyond_streams(file: File) -> io::Result<File> {
    if file.as_raw_fd() <= 2 {
        file.try_clone()
    } else {
        Ok(file)
    }
}

/// Opens a file of the folder that the program runs in, and locks it. An absent one is made empty.
pub(crate) fn hold(
    rt: &HostRuntime,
    people: &People<'_>,
    name: &'static str,
) -> io::Result<HeldFile>
    ensures { IfOk result (λ held. held.name.now ≡ name.now) }
{
    let (opened, is_new) = open(rt, people, name)?;
    let file = people.heard(name, "open", beyond_streams(opened))?;
    match file.try_lock() {
        Ok(()) => Ok(HeldFile { name, file, is_new }),
        Err(TryLockError::WouldBlock) => {
            let text = "another program has the folder";
            Err(refused(people, name, text))
        }
        Err(TryLockError::Error(error)) => people.heard(name, "lock", Err(error)),
    }
}

impl HeldFile {
    /// The length of the file.
    pub(crate) fn len(&self, people: &People<'_>) -> io::Result<u64> {
        let found = people.heard(self.name, "look at it", self.file.metadata())?;
        Ok(found.len())
    }

    /// The file that is held is the one that stands at the name, and has no other name: so whoever came by another way holds
    /// another file, and nobody's file elsewhere is written.
    pub(crate) fn is_the_only(&self, rt: &HostRuntime, people: &People<'_>) -> io::Result<()> {
        let named = people.heard(self.name, "look at it", fs::symlink_metadata(rt, self.name))?;
        let held = people.heard(self.name, "look at it", self.file.metadata())?;
        if named.dev() != held.dev() || named.ino() != held.ino() {
            return Err(refused(people, self.name, REPLACED));
        }
        if held.nlink() != 1 {
            let text = "the file has more than one name, and only one with a single name is taken";
            return Err(refused(people, self.name, text));
        }
        Ok(())
    }

    /// Syncs the file, and drops the system's copies of its bytes: where an earlier sync failed, these may not be what the disk
    /// has.
    pub(crate) fn settle(&self, people: &People<'_>) -> io::Result<()> {
        people.heard(self.name, "sync", self.file.sync_data())?;
        let advice = libc::POSIX_FADV_DONTNEED;
        match libc::posix_fadvise(self.file.as_raw_fd(), 0, 0, advice) {
            0 => Ok(()),
            code => people.heard(self.name, "forget", Err(io::Error::from_raw_os_error(code))),
        }
    }
}
