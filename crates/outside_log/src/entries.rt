//! The entries of a log.

ghost use Rattle.std.specs.Prelude.{◌≡◌, [], ◌∷◌, ◌++◌, IfSome, IsSomeAnd, IsOkAnd};

use std::alloc::AllocError;

/// The log with one more entry. None, from then on, if there is no memory for an entry.
pub(crate) fn with_entry<T: Drop>(
    log: Option<Vec<T>>,
    entry: Result<T, AllocError>,
) -> Option<Vec<T>>
    ensures { IfSome result (λ grown. IsSomeAnd log
        (λ before. IsOkAnd entry (λ e. grown.items ≡ before.items ++ e ∷ []))) }
{
    let Some(mut entries) = log else {
        return None;
    };
    let Ok(entry) = entry else {
        return None;
    };
    if entries.push(entry).is_err() {
        return None;
    }
    Some(entries)
}
