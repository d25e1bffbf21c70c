//! Values by id.

ghost use Rattle.std.specs.Prelude.{◌≡◌, ◌==◌, nat_eq, ℕ, if◌then◌else◌, unwrap_or, Some, OnOk};
ghost use Rattle.std.specs.HashMap.{get};

use std::collections::HashMap;
use wind_base::NoMemory;

/// The value at an id, or another one if there is none.
pub(crate) fn value_at<V: Copy>(values: &HashMap<u32, V>, id: u32, other: V) -> V
    ensures { result ≡ unwrap_or (get nat_eq values.now id) other }
{
    match values.get(&id) {
        Some(value) => *value,
        None => other,
    }
}

/// Puts a value at an id.
pub(crate) fn put_at<V: Drop>(
    values: &mut HashMap<u32, V>,
    id: u32,
    value: V,
) -> Result<(), NoMemory>
    ensures { OnOk result ((q : ℕ) → get nat_eq values.new q
        ≡ (if id == q then Some value else get nat_eq values.old q)) }
{
    if values.insert(id, value).is_err() {
        return Err(NoMemory);
    }
    Ok(())
}
