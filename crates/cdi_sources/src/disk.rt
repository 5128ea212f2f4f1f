//! What files and folders are read from.

use std::fs::{File, FileType};
use std::io::Read;
use std::{fs, io};

/// What stands at a path.
#[derive(Clone, Copy, Debug, PartialEq, Eq)]
pub enum Sort {
    Folder,
    /// A regular file.
    File,
    /// A pipe, a device, a socket, or a link where links are not followed.
    Other,
}

impl From<FileType> for Sort {
    fn from(file_type: FileType) -> Sort {
        if file_type.is_dir() {
            Sort::Folder
        } else if file_type.is_file() {
            Sort::File
        } else {
            Sort::Other
        }
    }
}

/// Files and folders at paths.
pub trait Disk {
    type File: Read + Drop;

    /// A folder that is read as its names, each ended by a NUL. No read ends inside a name.
    type Folder: Read + Drop;

    /// What stands at a path, where links are followed.
    fn sort_at(&self, path: &str) -> io::Result<Sort>;

    /// What stands at a path itself: no link is followed at its end.
    fn own_sort_at(&self, path: &str) -> io::Result<Sort>;

    fn open(&self, path: &str) -> io::Result<Self::File>;

    /// Opens the folder at a path that ends in a slash.
    fn open_folder(&self, path: &str) -> io::Result<Self::Folder>;
}

impl Disk for HostRuntime {
    type File = File;

    type Folder = <HostRuntime as fs::Files>::Dir;

    fn sort_at(&self, path: &str) -> io::Result<Sort> {
        Ok(fs::metadata(self, path)?.file_type().into())
    }

    fn own_sort_at(&self, path: &str) -> io::Result<Sort> {
        Ok(fs::symlink_metadata(self, path)?.file_type().into())
    }

    fn open(&self, path: &str) -> io::Result<File> {
        File::open(self, path)
    }

    fn open_folder(&self, path: &str) -> io::Result<Self::Folder> {
        fs::Files::open_dir(self, path)
    }
}
