ghost use Rattle.std.specs.Prelude.{ℕ, List, is_ok};
ghost use Rattle.mdf_hostfile.specs.Call.{FileCall, answer};
ghost use Rattle.mdf_hostfile.specs.Call.FileCall.{Open, CreateNew, SyncFolder, Size, ReadAt, WriteAll, SyncData};

use std::fs::File;
use std::os::unix::fs::FileExt;
use std::path::Path;
use std::rt::Files;
use std::{io, str};

/// The calls of the system on one file.
pub trait FileCalls {
    /// That this call was made, and no other, between the first state and the second.
    ghost makes: { Self → FileCall → Self → Type 0 };

    /// Opens the file of this name, which is there, to read it.
    fn open(&mut self, name: &[u8]) -> io::Result<()>
        ensures { makes self.old (Open name.now (is_ok result)) self.new };

    /// Makes a file under this name, which must not be taken.
    fn create_new(&mut self, name: &[u8]) -> io::Result<()>
        ensures { makes self.old (CreateNew name.now (is_ok result)) self.new };

    /// Syncs the folder that holds the file of this name, so that the name is kept.
    fn sync_folder(&mut self, name: &[u8]) -> io::Result<()>
        ensures { makes self.old (SyncFolder name.now (is_ok result)) self.new };

    /// The length of the file, in bytes.
    fn size(&mut self) -> io::Result<u64>
        ensures { makes self.old (Size (answer result)) self.new };

    /// Reads the bytes from `at` on into the whole buffer.
    fn read_at(&mut self, at: u64, buf: &mut [u8]) -> io::Result<()>
        ensures { makes self.old (ReadAt at buf.new (is_ok result)) self.new };

    /// Writes all the bytes from `at` on.
    fn write_all(&mut self, at: u64, bytes: &[u8]) -> io::Result<()>
        ensures { makes self.old (WriteAll at bytes.now (is_ok result)) self.new };

    /// Keeps the bytes of the file.
    fn sync_data(&mut self) -> io::Result<()>
        ensures { makes self.old (SyncData (is_ok result)) self.new };
}

/// A file of the machine. What is trusted of it stands here: that each call is made, by std's `File`.
#[derive(Drop)]
pub struct SystemFile<'a, R> {
    rt: &'a R,
    file: Option<File>,
}

/// The name as a path, which is text.
fn path_of(name: &[u8]) -> io::Result<&str> {
    match str::from_utf8(name) {
        Ok(path) => Ok(path),
        Err(_) => Err(io::Error::from(io::ErrorKind::InvalidInput)),
    }
}

/// The folder of a path.
fn folder_of(path: &str) -> &str {
    match Path::new(path).parent() {
        Some(folder) if !folder.as_str().is_empty() => folder.as_str(),
        _ => ".",
    }
}

impl<'a, R: Files<File = File>> SystemFile<'a, R> {
    /// No file yet.
    pub fn new(rt: &'a R) -> SystemFile<'a, R> {
        SystemFile { rt, file: None }
    }

    fn file(&self) -> io::Result<&File> {
        match &self.file {
            Some(file) => Ok(file),
            None => Err(io::Error::other("no file is open")),
        }
    }
}

impl<'a, R: Files<File = File>> FileCalls for SystemFile<'a, R> {
    ghost use Rattle.std.specs.Prelude.{⊤};

    ghost makes = { λ _ _ _. ⊤ };

    fn open(&mut self, name: &[u8]) -> io::Result<()> {
        self.file = Some(File::open(self.rt, path_of(name)?)?);
        Ok(())
    }

    fn create_new(&mut self, name: &[u8]) -> io::Result<()> {
        self.file = Some(File::create_new(self.rt, path_of(name)?)?);
        Ok(())
    }

    fn sync_folder(&mut self, name: &[u8]) -> io::Result<()> {
        File::open(self.rt, folder_of(path_of(name)?))?.sync_all()
    }

    fn size(&mut self) -> io::Result<u64> {
        Ok(self.file()?.metadata()?.len())
    }

    fn read_at(&mut self, at: u64, buf: &mut [u8]) -> io::Result<()> {
        self.file()?.read_exact_at(buf, at)
    }

    fn write_all(&mut self, at: u64, bytes: &[u8]) -> io::Result<()> {
        self.file()?.write_all_at(bytes, at)
    }

    fn sync_data(&mut self) -> io::Result<()> {
        self.file()?.sync_data()
    }
}
