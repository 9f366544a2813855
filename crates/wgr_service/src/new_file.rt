//! Files that weren't there before: each is removed only by the call that made it.
use std::fs::{self, Files, OpenFile, OpenOptions};
use std::io::{self, Read, Seek, SeekFrom};
use std::os::unix::fs::OpenOptionsExt;

/// Who may read and write such a file: its owner.
const MODE: u32 = 0o600;

/// A file that was made under a name that nothing had.
#[derive(Drop)]
pub(crate) struct NewFile<'a, H: Files> {
    host: &'a H,
    path: String,
    file: H::File,
}

impl<'a, H: Files> NewFile<'a, H> {
    /// Makes the file. Whatever has the name, be it a link, stays, and is an error.
    pub(crate) fn make(host: &'a H, path: String) -> io::Result<NewFile<'a, H>> {
        let file = OpenOptions::new()
            .write(true)
            .create_new(true)
            .mode(MODE)
            .open(host, path.as_str())?;
        Ok(NewFile { host, path, file })
    }

    /// Its name.
    pub(crate) fn path(&self) -> &str {
        self.path.as_str()
    }

    /// Copies all of the source, and returns once that is on the disk.
    pub(crate) fn fill<R: Read + Seek>(&mut self, source: &mut R) -> io::Result<()> {
        source.seek(SeekFrom::Start(0))?;
        io::copy(source, &mut self.file)?;
        self.file.sync_all()
    }

    /// Takes the file away.
    pub(crate) fn remove(&self) {
        let _ = fs::remove_file(self.host, self.path.as_str());
    }
}
