//! The files of a folder, opened and locked.

ghost use Rattle.std.specs.Prelude.{◌≡◌, ◌+◌, ◌<◌, [], ◌∷◌, ◌++◌, codes, IfOk};

use crate::cause::Cause;
use crate::files::Files;
use crate::longest::{below, longest_file};
use crate::open_file::{HeldFile, hold};
use crate::people::People;
use std::fs::File;
use std::io::{self, ErrorKind};
use std::os::unix::fs::FileExt;

/// The three files. Nobody else has one of them open and locked, as long as they are held.
#[derive(Drop)]
struct OpenFiles {
    header: HeldFile,
    first_area: HeldFile,
    second_area: HeldFile,
    ghost first: { header.name.now ≡ codes "nmc.0" },
    ghost second: { first_area.name.now ≡ codes "nmc.1" },
    ghost third: { second_area.name.now ≡ codes "nmc.2" },
}

impl OpenFiles {
    /// A second program that comes to one of the files finds the lock, and ends before it reads or writes.
    fn open(rt: &HostRuntime, people: &People<'_>) -> io::Result<OpenFiles> {
        let header = hold(rt, people, "nmc.0")?;
        let first_area = hold(rt, people, "nmc.1")?;
        let second_area = hold(rt, people, "nmc.2")?;
        let files = OpenFiles {
            header,
            first_area,
            second_area,
        };
        files.settle(rt, people)?;
        files.tell_of_missing(people)?;
        Ok(files)
    }

    /// Whoever made a file, this run or one that was cut off, its name has to outlive a crash.
    fn settle(&self, rt: &HostRuntime, people: &People<'_>) -> io::Result<()> {
        for held in [&self.header, &self.first_area, &self.second_area] {
            held.is_the_only(rt, people)?;
            held.settle(people)?;
        }
        let folder = people.heard("the folder", "open", File::open(rt, "."))?;
        people.heard("the folder", "sync", folder.sync_all())
    }

    /// Where one of the first two files holds something, all three were made once.
    fn tell_of_missing(&self, people: &People<'_>) -> io::Result<()> {
        if self.header.len(people)? > 0 || self.first_area.len(people)? > 0 {
            for held in [&self.header, &self.first_area, &self.second_area] {
                if held.is_new {
                    people.tell(Cause::Odd {
                        thing: held.name,
                        text: "it was missing, and is now an empty file",
                    });
                }
            }
        }
        Ok(())
    }

    fn held(&self, number: u8) -> &HeldFile
        requires { number < 3 }
        ensures { result.now.name.now ≡ codes "nmc." ++ (48 + number) ∷ [] }
    {
        match number {
            0 => &self.header,
            1 => &self.first_area,
            _ => &self.second_area,
        }
    }
}

/// People aren't told of a call that a signal interrupted: it is made again.
fn heard<T>(
    people: &People<'_>,
    held: &HeldFile,
    call: &'static str,
    answer: io::Result<T>,
) -> io::Result<T>
    ensures { result ≡ answer }
{
    match &answer {
        Err(error) if error.kind() == ErrorKind::Interrupted => answer,
        _ => people.heard(held.name, call, answer),
    }
}

/// The files `nmc.0`, `nmc.1` and `nmc.2` of the folder that the program runs in. They are opened where one is
/// asked for: what needs no file touches none. People are told why a call fails.
#[derive(Drop)]
pub struct Folder<'a> {
    rt: &'a HostRuntime,
    people: &'a People<'a>,
    files: Option<OpenFiles>,
    // what the system allowed when the program started
    longest: u64,
}

impl<'a> Folder<'a> {
    /// No file is opened yet.
    pub(crate) fn new(rt: &'a HostRuntime, people: &'a People<'a>) -> Self {
        Folder {
            rt,
            people,
            files: None,
            longest: longest_file(),
        }
    }

    /// Opens the files, where none was asked for yet.
    fn open(&mut self) -> io::Result<()>
        ensures { self.new.longest ≡ self.old.longest }
    {
        if self.files.is_none() {
            self.files = Some(OpenFiles::open(self.rt, self.people)?);
        }
        Ok(())
    }

    fn held(&self, number: u8) -> io::Result<&HeldFile>
        requires { number < 3 }
        ensures { IfOk result (λ held. held.now.name.now ≡ codes "nmc." ++ (48 + number) ∷ []) }
    {
        match &self.files {
            Some(files) => Ok(files.held(number)),
            None => Err(ErrorKind::NotFound.into()),
        }
    }
}

impl<'a> Files for Folder<'a> {
    ghost use Rattle.std.specs.Prelude.{false, []};
    ghost use Rattle.disk_model.specs.FileState.{synced_file};
    ghost use Rattle.system_io.specs.Silence.{no_telling};

    ghost tells = { false };

    ghost moments = { λ f. record { now = λ file. synced_file []; past = [] } };

    ghost shows = { λ f file told below. no_telling told };

    ghost limit = { λ f. f.longest };

    fn longest(&self) -> u64 {
        self.longest
    }

    fn len(&mut self, file: u8) -> io::Result<u64> {
        let people = self.people;
        self.open()?;
        let held = self.held(file)?;
        held.len(people)
    }

    fn read_part(&mut self, file: u8, at: u64, buf: &mut [u8]) -> io::Result<usize> {
        let people = self.people;
        self.open()?;
        let held = self.held(file)?;
        heard(people, held, "read", held.file.read_at(buf, at))
    }

    fn write_part(&mut self, file: u8, at: u64, bytes: &[u8]) -> io::Result<usize> {
        let people = self.people;
        self.open()?;
        let front = below(bytes, at, self.longest);
        let held = self.held(file)?;
        heard(people, held, "write", held.file.write_at(front, at))
    }

    fn cut(&mut self, file: u8, len: u64) -> io::Result<()> {
        let people = self.people;
        self.open()?;
        let held = self.held(file)?;
        heard(people, held, "cut", held.file.set_len(len))
    }

    fn sync(&mut self, file: u8) -> io::Result<()> {
        let people = self.people;
        self.open()?;
        let held = self.held(file)?;
        heard(people, held, "sync", held.file.sync_data())
    }

    fn tell(&self, file: u8, call: &'static str, error: io::Error) {
        if let Some(files) = &self.files {
            let thing = files.held(file).name;
            self.people.tell(Cause::Failed { thing, call, error });
        }
    }
}
