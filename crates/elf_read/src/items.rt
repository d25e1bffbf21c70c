//! The lists that make up a module.

ghost use Rattle.std.specs.Prelude.{◌≡◌};

use std::marker::Model;

/// Items in order. A contract sees them as a list.
#[derive(Drop)]
pub struct Items<T> {
    kept: Vec<T>,
}

impl<T> Model for Items<T> {
    ghost use Rattle.std.specs.Prelude.{List};
    ghost use Rattle.std.specs.Coded.{coded_list};

    ghost Value = { List T };

    ghost coded = { coded_list T.code };

    ghost view = { λ a. a.kept.items };
}

impl<T> Items<T> {
    /// The items of a `Vec`. It takes no memory.
    pub fn from_vec(kept: Vec<T>) -> Items<T>
        ensures { result ≡ kept.items }
    {
        Items { kept }
    }

    /// The items.
    pub fn as_slice(&self) -> &[T]
        ensures { result.now ≡ self.now }
    {
        self.kept.as_slice()
    }

    /// The items as a `Vec`. It takes no memory.
    pub fn into_vec(self) -> Vec<T>
        ensures { result.items ≡ self }
    {
        self.kept
    }
}
