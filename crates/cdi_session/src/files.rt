//! What opens a path.
ghost use Rattle.std.specs.Prelude.{◌≡◌, ℕ, List, Option, ⊤, None, IfOk, IfErr};
ghost use Rattle.std.specs.IoError.{error_kind};
ghost use Rattle.std.specs.declared.io.ErrorKind.{ErrorKind};

use std::fs::File;
use std::io::Read;
use std::{fs, io};

/// What opens a path for reading.
pub trait Files {
    type File: Read + Drop;

    // The bytes of the file at a path, where they are known.
    ghost contents_at: { Self → List ℕ → Option (List ℕ) } = { λ _ _. None };

    // The kinds of error that a path may have in place of a file.
    ghost refuses: { Self → List ℕ → ErrorKind → Type 0 } = { λ _ _ _. ⊤ };

    /// The file at the path, at its first byte.
    fn open(&self, path: &str) -> io::Result<Self::File>
        ensures opened { IfOk result (λ file. Self.File.remaining file ≡ contents_at self.now path.now) }
        ensures refused { IfErr result (λ error. refuses self.now path.now (error_kind error)) };
}

impl Files for HostRuntime {
    type File = File;

    fn open(&self, path: &str) -> io::Result<File> {
        fs::open(self, path)
    }
}
