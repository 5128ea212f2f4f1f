//! Files of declarations.

/// What a file is.
#[derive(Clone, Copy, Debug, PartialEq, Eq)]
pub enum Form {
    /// The text of one declaration.
    Declaration,
    /// A script of commands.
    Script,
}

impl Form {
    /// What a file is, by its path.
    pub(crate) fn of_path(path: &str) -> Form {
        if path.ends_with(".toml") {
            Form::Declaration
        } else {
            Form::Script
        }
    }
}

/// How the paths of sources are given.
#[derive(Clone, Copy, Debug, PartialEq, Eq)]
pub enum PathForm {
    /// As they are.
    Exact,
    /// As lines print them: see `Escaped`.
    Escaped,
}

/// A file, with the path by which it was found.
#[derive(Debug, Drop)]
pub struct Source {
    /// The path, in the form that was asked for.
    pub path: String,
    pub form: Form,
    /// The bytes of the file. Of a declaration that is too long they are one more than it may have.
    pub text: Vec<u8>,
}
