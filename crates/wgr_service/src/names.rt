//! The names of a database's files, and which files this process has open.
ghost use Rattle.std.specs.Prelude.{◌≡◌, ◌++◌, IfOk, codes, string_bytes};

use std::alloc::{AllocError, Global};
use std::fs::{self, File, Files};
use std::io;
use std::os::unix::fs::MetadataExt;

/// Where the system lists the files that this process has open.
const OPEN_FILES: &str = "/proc/self/fd";

/// What the system adds to the name of an open file that no longer has it.
const GONE: &str = " (deleted)";

/// What SQLite adds to the name of a database, for the files that it uses beside it.
pub(crate) const ENDS: [&str; 4] = ["", "-wal", "-shm", "-journal"];

/// The names of a database's two files.
#[derive(Drop)]
pub(crate) struct Names {
    pub(crate) file: String,
    pub(crate) log: String,
}

impl Names {
    pub(crate) fn new(alloc: Global, file: &str) -> Result<Names, AllocError>
        ensures file { IfOk result (λ names. string_bytes names.file ≡ file.now) }
        ensures log { IfOk result (λ names. string_bytes names.log ≡ file.now ++ codes "-wal") }
    {
        Ok(Names {
            file: format!(in alloc; "{file}")?,
            log: format!(in alloc; "{file}-wal")?,
        })
    }

    /// The same with no link in them, where one leads to the file. SQLite has the log beside the file itself.
    pub(crate) fn resolve<H: AllocGlobal + Files>(
        alloc: Global,
        host: &H,
        path: &str,
    ) -> io::Result<Names> {
        let real = fs::canonicalize(host, path)?;
        Ok(Names::new(alloc, real.as_str())?)
    }

    /// Whether the path is one that SQLite uses for this database, whatever way it leads there.
    pub(crate) fn include<H: Files>(&self, host: &H, path: &str) -> bool {
        let Some(end) = name_of(path).strip_prefix(name_of(&self.file)) else {
            return false;
        };
        ENDS.contains(&end) && is_same_folder(host, folder_of(path), folder_of(&self.file))
    }
}

/// The file that this process has open under this name, also where it lost the name or something else has it by now.
pub(crate) fn open_again<H: AllocGlobal + Clone + Drop + Files>(
    host: &H,
    name: &str,
) -> io::Result<H::File> {
    for entry in fs::read_dir(host, OPEN_FILES)? {
        let entry = entry?;
        let Ok(target) = fs::read_link(host, entry.path()) else {
            continue;
        };
        if is_under(target.as_str(), name) {
            return File::open(host, entry.path());
        }
    }
    Err(io::Error::from(io::ErrorKind::NotFound))
}

fn is_under(target: &str, name: &str) -> bool {
    match target.strip_prefix(name) {
        Some(end) => end.is_empty() || end == GONE,
        None => false,
    }
}

/// A file's folder.
pub(crate) fn folder_of(path: &str) -> &str {
    match path.rfind('/') {
        Some(0) | None => "/",
        Some(end) => &path[..end],
    }
}

/// A file's name in its folder.
pub(crate) fn name_of(path: &str) -> &str {
    match path.rfind('/') {
        Some(end) => &path[end + 1..],
        None => path,
    }
}

fn is_same_folder<H: Files>(host: &H, one: &str, other: &str) -> bool {
    let Ok(one) = fs::metadata(host, one) else {
        return false;
    };
    let Ok(other) = fs::metadata(host, other) else {
        return false;
    };
    one.dev() == other.dev() && one.ino() == other.ino()
}
