//! The names in a folder.

use crate::disk::Disk;
use std::alloc::Global;
use std::io;
use std::io::{ErrorKind, Read};

/// How many bytes of names are read at once.
const PIECE: usize = 8192;

/// The names in the folder at a path, each ended by a NUL. The path ends in a slash.
pub(crate) fn names_at<D: Disk>(disk: &D, alloc: Global, folder: &str) -> io::Result<Vec<u8>> {
    let mut reader = disk.open_folder(folder)?;
    let mut piece = Vec::from_elem(alloc, 0u8, PIECE)?;
    let mut names = Vec::new(alloc);
    for _ in 0..u64::MAX {
        match reader.read(piece.as_mut_slice()) {
            Ok(0) => return Ok(names),
            Ok(count) => names.extend_from_slice(&piece[..count])?,
            Err(error) if error.kind() == ErrorKind::Interrupted => {}
            Err(error) => return Err(error),
        }
    }
    Err(io::Error::from(ErrorKind::TimedOut))
}
