//! Paths of files.

ghost use Rattle.std.specs.Prelude.{◌≡◌, IfOk, string_bytes};
ghost use Rattle.wind_session.specs.Paths.{path_in as path_in_lem};

use std::alloc::{AllocError, Global};

/// The path of a file in a folder: the folder's name, `/`, and the file's own.
pub fn path_in(alloc: Global, folder: &str, file: &str) -> Result<String, AllocError>
    ensures { IfOk result (λ path. string_bytes path ≡ path_in_lem folder.now file.now) }
{
    let mut path = folder.to_string(alloc)?;
    path.push_str("/")?;
    path.push_str(file)?;
    Ok(path)
}
