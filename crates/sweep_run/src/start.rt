//! What the runs of a sweep start from.

use wind_base::{BoardKind, Profile};

/// What each member's run starts from besides its tick file, and what its outcome shows.
#[derive(Drop)]
pub struct Start<'a> {
    /// The console file.
    pub console: Vec<u8>,
    /// The name of the folder of modules.
    pub modules: &'a str,
    /// The most steps of a run.
    pub limit: u64,
    /// The rule of inheritance.
    pub profile: Profile,
    /// The kind of board.
    pub kind: BoardKind,
    /// An outcome has the console's lines that begin with one of these texts.
    pub marks: Vec<&'a str>,
}
