// The files of the machine that a log has.
use mdf_disk::Disks;
use mdf_hostfile::{FileDisk, SystemFile, tell_file};
use std::fs::File;
use std::rt::Files;

/// Files of the machine, one for each part. Of one that failed standard error tells when it is taken back.
#[derive(Drop)]
pub struct FileDisks<'a, R> {
    rt: &'a R,
}

impl<'a, R> FileDisks<'a, R> {
    /// Without a file yet.
    pub fn new(rt: &'a R) -> FileDisks<'a, R> {
        FileDisks { rt }
    }
}

impl<'a, R: Files<File = File> + Eprint + Sync> Disks for FileDisks<'a, R> {
    type Disk = FileDisk<SystemFile<'a, R>>;

    ghost serves = { λ _ _ _. Unit {0} };

    ghost serves_none = { λ _. tt };

    ghost serves_more = { λ _ _ _ _ _ _ _. tt };

    fn next(&mut self) -> FileDisk<SystemFile<'a, R>> {
        FileDisk::new(self.rt)
    }

    fn keep(&mut self, disk: FileDisk<SystemFile<'a, R>>) {
        tell_file(self.rt, &disk);
    }
}
