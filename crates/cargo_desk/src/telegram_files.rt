//! The telegram files of a call.
ghost use Rattle.std.specs.Prelude.{◌≡◌, ◌+◌, ◌-◌, ◌^◌, min};

use station_core::InputReader;
use std::alloc::{AllocError, Global};
use std::cell::RefCell;
use std::fs::File;
use std::io;
use std::io::Read;

/// Returns copies of paths.
pub fn owned_paths(alloc: Global, paths: &[&str]) -> Result<Vec<String>, AllocError> {
    let mut owned = Vec::new(alloc);
    for path in paths {
        owned.push(String::from_str(alloc, *path)?)?;
    }
    Ok(owned)
}

/// The reason why a file wasn't opened or read, and its index.
#[derive(Drop)]
pub struct Unread {
    place: usize,
    error: io::Error,
}

/// The files of telegrams, read one after another. A file is opened at its first read.
#[derive(Drop)]
pub struct Telegrams<'a> {
    rt: &'a HostRuntime,
    paths: &'a [String],
    unread: &'a RefCell<Option<Unread>>,
    /// The number of inputs that were begun.
    begun: usize,
    /// The number of files opened; the last of them is open.
    opened: usize,
    file: File,
}

impl<'a> Telegrams<'a> {
    /// Returns the files with these paths, of which the first is open.
    pub fn new(
        rt: &'a HostRuntime,
        paths: &'a [String],
        unread: &'a RefCell<Option<Unread>>,
        file: File,
    ) -> Telegrams<'a> {
        Telegrams {
            rt,
            paths,
            unread,
            begun: 0,
            opened: 1,
            file,
        }
    }

    /// Records why the file at an index wasn't opened or read.
    fn fail(&self, place: usize, error: io::Error) -> io::Error {
        if let Ok(mut unread) = self.unread.try_borrow_mut() {
            *unread = Some(Unread { place, error });
        }
        io::ErrorKind::Other.into()
    }

    /// Opens the next file, if its turn has come.
    fn open_next(&mut self) -> io::Result<()> {
        if self.begun <= self.opened {
            return Ok(());
        }
        let Some(path) = self.paths.get(self.opened) else {
            return Ok(());
        };
        match File::open(self.rt, path.as_str()) {
            Ok(file) => {
                self.file = file;
                self.opened = self.begun;
                Ok(())
            }
            Err(error) => Err(self.fail(self.opened, error)),
        }
    }
}

impl InputReader for Telegrams<'_> {
    ghost begun = { λ old new. new.begun ≡ min (old.begun + 1) (2 ^ 64 - 1) };

    fn begin_input(&mut self) {
        self.begun = self.begun.saturating_add(1);
    }
}

impl Read for Telegrams<'_> {
    fn read(&mut self, buf: &mut [u8]) -> io::Result<usize> {
        self.open_next()?;
        match self.file.read(buf) {
            Err(error) if error.kind() != io::ErrorKind::Interrupted => {
                Err(self.fail(self.opened.saturating_sub(1), error))
            }
            read => read,
        }
    }
}

/// Writes the reason why a file wasn't opened or read, after the line of its fault.
pub fn tell_unread(rt: &HostRuntime, paths: &[String], unread: &RefCell<Option<Unread>>) {
    let Ok(unread) = unread.try_borrow() else {
        return;
    };
    if let Some(Unread { place, error }) = &*unread {
        if let Some(path) = paths.get(*place) {
            let _told = eprint!(rt; "{path}: {error}\n");
        }
    }
}
