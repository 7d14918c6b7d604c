//! What is asked of a file.

/// What is asked of a file, with the paths of files.
#[derive(Clone, Copy, Debug)]
pub enum Request<'a> {
    /// What stands in a file.
    List(&'a str),
    /// Whether a file is sound.
    Check(&'a str),
    /// The living documents of a file, as lines.
    Dump(&'a str),
    /// A copy of a file that opens.
    Mend {
        /// Where the copy is written.
        copy: &'a str,
        /// The file.
        path: &'a str,
    },
}

impl<'a> Request<'a> {
    /// Returns the path of the file.
    pub(crate) fn path(&self) -> &'a str {
        match self {
            Request::List(path) | Request::Check(path) | Request::Dump(path) => path,
            Request::Mend { path, .. } => path,
        }
    }
}
