//! The folder's answer about the file that a load needs.

/// The folder's answer about the file that a load needs.
#[derive(Debug, Drop)]
pub enum FileAnswer {
    /// Its bytes.
    File(Vec<u8>),
    /// The file doesn't exist.
    NoFile,
    /// The file is longer than a module file may be: 4 MiB.
    LongFile,
}
