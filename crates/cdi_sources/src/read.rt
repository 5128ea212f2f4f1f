//! Reading files and folders.

use crate::disk::{Disk, Sort};
use crate::escaped::{Escaped, text_of_bytes};
use crate::names::names_at;
use crate::source::{Form, PathForm, Source};
use cdi_devices::SCRIPT_LIMIT;
use std::alloc::{AllocError, Global};
use std::io::{ErrorKind, Read};
use std::{fmt, io};

/// How many bytes the text of a declaration may have at most.
const TEXT_LIMIT: u64 = 65_536;

/// Why a path cannot be read.
#[derive(Debug, Drop)]
pub enum Cause {
    Device(io::Error),
    /// It has more bytes than this, which is the limit of a script.
    TooLong(u64),
}

impl Cause {
    /// Whether there was no memory to read it.
    pub fn is_out_of_memory(&self) -> bool {
        match self {
            Cause::Device(error) => error.kind() == ErrorKind::OutOfMemory,
            Cause::TooLong(_) => false,
        }
    }
}

impl From<io::Error> for Cause {
    fn from(error: io::Error) -> Cause {
        Cause::Device(error)
    }
}

impl fmt::Display for Cause {
    fn fmt<W: fmt::Write>(&self, f: &mut fmt::Formatter<W>) -> fmt::Result {
        match self {
            Cause::Device(error) => write!(f, "{error}"),
            Cause::TooLong(limit) => write!(f, "more than {limit} bytes"),
        }
    }
}

/// A path that cannot be read, and why.
#[derive(Debug, Drop)]
pub struct PathError {
    /// The path. Where a name in it is not UTF-8, it has escapes such as `\xff`.
    pub path: String,
    pub cause: Cause,
}

/// What was read, and what could not be.
#[derive(Debug, Drop)]
pub struct Readings {
    alloc: Global,
    pub sources: Vec<Source>,
    pub failed: Vec<PathError>,
}

/// What is found below a folder.
#[derive(Drop)]
struct Found {
    /// The folders that are still to be gone through.
    folders: Vec<String>,
    /// The declarations.
    files: Vec<String>,
}

/// Reads the files that some paths name, in order: of a folder each regular file below it whose name ends in `.toml`, in the byte
/// order of their paths, and else the file itself. What ends in `.toml` is the text of a declaration, and any other file a
/// script. A link to a folder within a folder is not followed. At most one byte more is read of a file than it may have.
///
/// It takes memory for the paths and the texts. A path that cannot be read is among `failed`, and the others are read. So is a
/// script that is too long.
pub fn read_sources<D: Disk>(
    disk: &D,
    alloc: Global,
    paths: &[&str],
    path_form: PathForm,
) -> Result<Readings, AllocError> {
    let mut readings = Readings {
        alloc,
        sources: Vec::new(alloc),
        failed: Vec::new(alloc),
    };
    for path in paths {
        let files = readings.files_of(disk, path)?;
        for file in files {
            readings.push_file(disk, file, path_form)?;
        }
    }
    Ok(readings)
}

impl Readings {
    /// Tells the paths that cannot be read on the standard error. Whether there is none.
    pub fn tell_failed(&self, rt: &HostRuntime) -> bool {
        for failed in self.failed.iter() {
            let PathError { path, cause } = failed;
            let path = Escaped(path.as_str());
            let _ = eprintln!(rt; "error: {path}: {cause}");
        }
        self.failed.is_empty()
    }

    /// The files that a path names, in order.
    fn files_of<D: Disk>(&mut self, disk: &D, path: &str) -> Result<Vec<String>, AllocError> {
        let mut files = Vec::new(self.alloc);
        let own_path = String::from_str(self.alloc, path)?;
        match disk.sort_at(path) {
            Ok(Sort::Folder) => {
                files = self.files_below(disk, own_path)?;
                files.sort()?;
            }
            Ok(_) => files.push(own_path)?,
            Err(error) => self.push_failed(own_path, error.into())?,
        }
        Ok(files)
    }

    /// The files below a folder that are declarations.
    fn files_below<D: Disk>(
        &mut self,
        disk: &D,
        folder: String,
    ) -> Result<Vec<String>, AllocError> {
        let mut found = Found {
            folders: Vec::new(self.alloc),
            files: Vec::new(self.alloc),
        };
        found.folders.push(folder)?;
        for _ in 0..u64::MAX {
            let Some(folder) = found.folders.pop() else {
                break;
            };
            self.find_in(disk, folder, &mut found)?;
        }
        Ok(found.files)
    }

    /// Finds the folders in a folder, and its files that are declarations.
    fn find_in<D: Disk>(
        &mut self,
        disk: &D,
        folder: String,
        found: &mut Found,
    ) -> Result<(), AllocError> {
        let mut prefix = String::from_str(self.alloc, folder.as_str())?;
        if !prefix.ends_with('/') {
            prefix.push_str("/")?;
        }
        let names = match names_at(disk, self.alloc, prefix.as_str()) {
            Ok(names) => names,
            Err(error) => return self.push_failed(folder, error.into()),
        };
        for name in names.as_slice().split(|byte| *byte == 0) {
            if !matches!(name, b"" | b"." | b"..") {
                self.find_entry(disk, prefix.as_str(), name, found)?;
            }
        }
        Ok(())
    }

    /// Finds an entry of a folder, if it is a folder itself, or a regular file that is a declaration.
    fn find_entry<D: Disk>(
        &mut self,
        disk: &D,
        prefix: &str,
        name: &[u8],
        found: &mut Found,
    ) -> Result<(), AllocError> {
        let name_text = text_of_bytes(self.alloc, name)?;
        let mut path = String::from_str(self.alloc, prefix)?;
        path.push_str(name_text.as_str())?;
        if str::from_utf8(name).is_err() {
            let cause = Cause::Device(ErrorKind::InvalidFilename.into());
            return self.push_failed(path, cause);
        }
        match sort_of_entry(disk, path.as_str()) {
            Ok(Sort::Folder) => found.folders.push(path)?,
            Ok(Sort::File) => found.files.push(path)?,
            Ok(Sort::Other) => {}
            Err(error) => self.push_failed(path, error.into())?,
        }
        Ok(())
    }

    /// Reads a file.
    fn push_file<D: Disk>(
        &mut self,
        disk: &D,
        path: String,
        path_form: PathForm,
    ) -> Result<(), AllocError> {
        let form = Form::of_path(path.as_str());
        let text = match read_as(disk, self.alloc, path.as_str(), form) {
            Ok(text) => text,
            Err(cause) => return self.push_failed(path, cause),
        };
        let path = match path_form {
            PathForm::Exact => path,
            PathForm::Escaped => escaped(self.alloc, path.as_str())?,
        };
        self.sources.push(Source { path, form, text })?;
        Ok(())
    }

    /// Notes a path that cannot be read, unless there was no memory to read it.
    fn push_failed(&mut self, path: String, cause: Cause) -> Result<(), AllocError> {
        if cause.is_out_of_memory() {
            return Err(AllocError);
        }
        self.failed.push(PathError { path, cause })?;
        Ok(())
    }
}

/// What stands at the path of an entry of a folder: a folder, a declaration, or what is left out.
fn sort_of_entry<D: Disk>(disk: &D, path: &str) -> io::Result<Sort> {
    if disk.own_sort_at(path)? == Sort::Folder {
        return Ok(Sort::Folder);
    }
    if !path.ends_with(".toml") || disk.sort_at(path)? != Sort::File {
        return Ok(Sort::Other);
    }
    Ok(Sort::File)
}

/// The bytes of a file of this form, or of a declaration that is too long one more than it may have.
fn read_as<D: Disk>(disk: &D, alloc: Global, path: &str, form: Form) -> Result<Vec<u8>, Cause> {
    match form {
        Form::Declaration => Ok(read_front(disk, alloc, path, TEXT_LIMIT)?),
        Form::Script => read_limited(disk, alloc, path),
    }
}

/// The bytes of a file, if they are no more than a script may have.
pub fn read_limited<D: Disk>(disk: &D, alloc: Global, path: &str) -> Result<Vec<u8>, Cause> {
    let text = read_front(disk, alloc, path, SCRIPT_LIMIT)?;
    if text.len() as u64 > SCRIPT_LIMIT {
        return Err(Cause::TooLong(SCRIPT_LIMIT));
    }
    Ok(text)
}

/// The bytes of a file from its front, at most one more than a limit.
fn read_front<D: Disk>(disk: &D, alloc: Global, path: &str, limit: u64) -> io::Result<Vec<u8>> {
    let mut text = Vec::new(alloc);
    let file = disk.open(path)?;
    file.take(limit.saturating_add(1)).read_to_end(&mut text)?;
    Ok(text)
}

/// A path as lines print it.
fn escaped(alloc: Global, path: &str) -> Result<String, AllocError> {
    let path = Escaped(path);
    format!(in alloc; "{path}")
}
