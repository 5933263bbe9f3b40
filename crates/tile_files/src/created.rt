//! The file of the edited tile, which nothing touches before there is something to write.

ghost use Rattle.std.specs.Prelude.{◌≡◌, IsOk, IsSome, OnErr, OnOk};

use std::fs;
use std::io::{self, ErrorKind, Write};
use std::rt::Files;

/// A file by its path. The first call on it opens it, with no bytes in it.
#[derive(Drop)]
pub(crate) struct Created<'a, R: Files> {
    rt: &'a R,
    path: &'a str,
    file: Option<R::File>,
}

impl<'a, R: Files> Created<'a, R> {
    pub(crate) fn new(rt: &'a R, path: &'a str) -> Self {
        Created {
            rt,
            path,
            file: None,
        }
    }

    /// Opens the file with no bytes in it, unless an earlier call did.
    fn create(&mut self) -> io::Result<()>
        ensures made { OnOk result (IsSome self.new.file) }
        ensures once { IsSome self.old.file → (self.new ≡ self.old) × IsOk result }
        ensures err { OnErr result (self.new ≡ self.old) }
    {
        if self.file.is_none() {
            self.file = Some(fs::create(self.rt, self.path)?);
        }
        Ok(())
    }
}

impl<R: Files> Write for Created<'_, R> {
    fn write(&mut self, bytes: &[u8]) -> io::Result<usize> {
        self.create()?;
        match &mut self.file {
            Some(file) => file.write(bytes),
            None => Err(io::Error::from(ErrorKind::NotFound)),
        }
    }

    fn flush(&mut self) -> io::Result<()> {
        self.create()?;
        match &mut self.file {
            Some(file) => file.flush(),
            None => Err(io::Error::from(ErrorKind::NotFound)),
        }
    }
}
