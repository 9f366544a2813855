//! Copies of a register's files, made while it is served.
use crate::names::{ENDS, Names, folder_of, name_of, open_again};
use crate::new_file::NewFile;
use std::alloc::{AllocError, Global};
use std::fs::{self, File, Files, OpenFile};
use std::io;
use std::os::unix::fs::symlink;

/// How many names are tried for the parts of a copy.
const PART_NAMES: usize = 1000;

/// Why no copy is made.
#[derive(Clone, Copy, Debug, PartialEq, Eq)]
pub enum CopyFault {
    /// Something has one of the copy's names, or the register may have a file of this name.
    Exists,
    /// Memory was refused.
    NoMemory,
    /// A file can't be read or written, or this process doesn't have the register open.
    Device,
}

impl From<AllocError> for CopyFault {
    fn from(_: AllocError) -> CopyFault {
        CopyFault::NoMemory
    }
}

impl From<io::Error> for CopyFault {
    fn from(error: io::Error) -> CopyFault {
        match error.kind() {
            io::ErrorKind::AlreadyExists => CopyFault::Exists,
            io::ErrorKind::OutOfMemory => CopyFault::NoMemory,
            _ => CopyFault::Device,
        }
    }
}

/// The files of a register that is served, to be copied between two requests.
pub trait Archive {
    /// Copies the database's file to `file`, and its log to `file` with `-wal` behind it. Neither is there before,
    /// and `file` appears only once all of both is on the disk. What else is there stays.
    fn copy(&mut self, file: &str) -> Result<(), CopyFault>;
}

/// The files of the register at a path of the system.
#[derive(Drop)]
pub struct FileCopies<'a, H: Files> {
    alloc: Global,
    host: &'a H,
    register: Result<Names, CopyFault>,
}

/// A copy of both files that doesn't have its names yet.
#[derive(Drop)]
struct Parts<'a, H: Files> {
    file: NewFile<'a, H>,
    log: NewFile<'a, H>,
}

impl<'a, H: AllocGlobal + Clone + Drop + Files> FileCopies<'a, H> {
    /// Those of the database at this path. It is asked now where links there lead, so the register is opened after
    /// this. Its files are copied as this process has them open, whatever has their names by then.
    pub fn new(alloc: Global, host: &'a H, path: &str) -> FileCopies<'a, H> {
        let register = match Names::resolve(alloc, host, path) {
            Ok(names) => Ok(names),
            Err(error) => Err(CopyFault::from(error)),
        };
        FileCopies {
            alloc,
            host,
            register,
        }
    }

    // Whether something has a name that SQLite would use for the copy, or the register may have a file of it.
    fn is_taken(&self, register: &Names, file: &str) -> Result<bool, AllocError> {
        for end in ENDS {
            let path = format!(in self.alloc; "{file}{end}")?;
            if fs::symlink_metadata(self.host, path.as_str()).is_ok() {
                return Ok(true);
            }
            if register.include(self.host, path.as_str()) {
                return Ok(true);
            }
        }
        Ok(false)
    }

    // Makes the parts of a copy under names that nothing has.
    fn make_parts(&self, file: &str) -> Result<Parts<'a, H>, CopyFault> {
        for number in 0..PART_NAMES {
            match self.make_pair(format!(in self.alloc; "{file}.part{number}")?) {
                Err(CopyFault::Exists) => {}
                made => return made,
            }
        }
        Err(CopyFault::Exists)
    }

    fn make_pair(&self, file: String) -> Result<Parts<'a, H>, CopyFault> {
        let log = format!(in self.alloc; "{file}-wal")?;
        let file = NewFile::make(self.host, file)?;
        match NewFile::make(self.host, log) {
            Ok(log) => Ok(Parts { file, log }),
            Err(error) => {
                file.remove();
                Err(CopyFault::from(error))
            }
        }
    }

    // Copies the register's files into the parts, and gives the copy its names. Returns its log.
    fn copy_by(
        &self,
        register: &Names,
        parts: &mut Parts<'a, H>,
        copy: &Names,
    ) -> Result<NewFile<'a, H>, CopyFault> {
        let mut file = open_again(self.host, &register.file)?;
        let mut log = open_again(self.host, &register.log)?;
        parts.file.fill(&mut file)?;
        parts.log.fill(&mut log)?;
        let name = format!(in self.alloc; "{}", copy.log)?;
        let mut beside = NewFile::make(self.host, name)?;
        let named = match beside.fill(&mut log) {
            Ok(()) => self.give_name(parts.file.path(), &copy.file),
            Err(error) => Err(error),
        };
        match named {
            Ok(()) => Ok(beside),
            Err(error) => {
                beside.remove();
                Err(CopyFault::from(error))
            }
        }
    }

    // Gives the part of the database the copy's name. No call of std renames a file only where nothing has the name,
    // but a symbolic link is made only there, and the rename takes its place. Until then it leads to the parts, which
    // are a whole copy.
    fn give_name(&self, part: &str, file: &str) -> io::Result<()> {
        self.sync_folder(file)?;
        symlink(self.host, name_of(part), file)?;
        let renamed = fs::rename(self.host, part, file);
        if renamed.is_err() {
            let _ = fs::remove_file(self.host, file);
        }
        renamed
    }

    // Makes the names of a copy last, or takes both away.
    fn last(&self, copy: &Names, log: &NewFile<'a, H>) -> Result<(), CopyFault> {
        match self.sync_folder(&copy.file) {
            Ok(()) => Ok(()),
            Err(error) => {
                let _ = fs::remove_file(self.host, copy.file.as_str());
                log.remove();
                Err(CopyFault::from(error))
            }
        }
    }

    // Makes the names in a file's folder last.
    fn sync_folder(&self, file: &str) -> io::Result<()> {
        File::open(self.host, folder_of(file))?.sync_all()
    }
}

impl<H: AllocGlobal + Clone + Drop + Files> Archive for FileCopies<'_, H> {
    fn copy(&mut self, file: &str) -> Result<(), CopyFault> {
        let register = match &self.register {
            Ok(names) => names,
            Err(why) => return Err(*why),
        };
        let copy = Names::new(self.alloc, file)?;
        if self.is_taken(register, file)? {
            return Err(CopyFault::Exists);
        }
        let mut parts = self.make_parts(file)?;
        let copied = self.copy_by(register, &mut parts, &copy);
        parts.log.remove();
        match copied {
            Ok(log) => self.last(&copy, &log),
            Err(why) => {
                parts.file.remove();
                Err(why)
            }
        }
    }
}
