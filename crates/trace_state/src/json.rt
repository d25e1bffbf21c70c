//! Objects and lists of JSON under way.

ghost use Rattle.std.specs.Prelude.{◌≡◌, ◌++◌, ◌∷◌, [], IfOk, OnOk};
ghost use Rattle.serde_json.specs.Data.{array, boolean, no_members, object, string};
ghost use Rattle.serde_json.specs.View.{items_of, view};
ghost use Rattle.trace_state.specs.Held.{items_in, members_in};
ghost use Rattle.trace_state.specs.Json.{number_of, number_or_null as number_or_null_lem, text_of, with_member};

use id_table::Ident;
use serde_json::{Map, Value, put};
use std::alloc::{AllocError, Global};
use trace_text::add_escaped;

/// The members of an object so far.
#[derive(Drop)]
pub struct Members {
    alloc: Global,
    map: Map<String, Value>,
}

impl Members {
    /// No members.
    pub fn new(alloc: Global) -> Members
        ensures { members_in result ≡ no_members }
    {
        Members {
            alloc,
            map: Map::new(alloc),
        }
    }

    /// Adds a member, or gives a key that is there another value.
    #[tactic(auto, unfolding(crate::specs::Json::with_member))]
    pub fn put(&mut self, key: &str, value: Value) -> Result<(), AllocError>
        ensures { OnOk result (members_in self.new ≡ with_member key.now (view value) (members_in self.old)) }
    {
        put(&mut self.map, self.alloc, key, value)
    }

    /// Adds a number.
    pub fn put_number(&mut self, key: &str, n: u64) -> Result<(), AllocError>
        ensures { OnOk result (members_in self.new ≡ with_member key.now (number_of n) (members_in self.old)) }
    {
        self.put(key, Value::from(n))
    }

    /// Adds true or false.
    pub fn put_flag(&mut self, key: &str, flag: bool) -> Result<(), AllocError>
        ensures { OnOk result (members_in self.new ≡ with_member key.now (boolean flag) (members_in self.old)) }
    {
        self.put(key, Value::from(flag))
    }

    /// Adds a word.
    pub fn put_word(&mut self, key: &str, word: &str) -> Result<(), AllocError>
        ensures { OnOk result (members_in self.new ≡ with_member key.now (string word.now) (members_in self.old)) }
    {
        let word = Value::try_from_str(self.alloc, word)?;
        self.put(key, word)
    }

    /// Adds bytes as a string, those that aren't plain as `\xNN`.
    pub fn put_text(&mut self, key: &str, bytes: &[u8]) -> Result<(), AllocError>
        ensures { OnOk result (members_in self.new ≡ with_member key.now (text_of bytes.now) (members_in self.old)) }
    {
        let text = shown(self.alloc, bytes)?;
        self.put(key, text)
    }

    /// The object with these members.
    pub fn finish(self) -> Value
        ensures { view result ≡ object (members_in self) }
    {
        let Members { alloc: _, map } = self;
        Value::from(map)
    }
}

/// The items of a list so far.
#[derive(Drop)]
pub struct Items {
    list: Vec<Value>,
}

impl Items {
    /// No items.
    pub fn new(alloc: Global) -> Items
        ensures { items_in result ≡ [] }
    {
        Items {
            list: Vec::new(alloc),
        }
    }

    /// Adds an item at the end.
    pub fn add(&mut self, value: Value) -> Result<(), AllocError>
        ensures { OnOk result (items_in self.new ≡ items_in self.old ++ view value ∷ []) }
    {
        Ok(self.list.push(value)?)
    }

    /// The list of these items.
    pub fn finish(self) -> Value
        ensures { view result ≡ array (items_of (items_in self)) }
    {
        let Items { list } = self;
        Value::from(list)
    }
}

/// A number, or null.
pub fn number_or_null(n: Option<u64>) -> Value
    ensures { view result ≡ number_or_null_lem n }
{
    match n {
        Some(n) => Value::from(n),
        None => Value::Null,
    }
}

/// An id, or null.
pub fn id_or_null(id: Option<Ident>) -> Value
    ensures { view result ≡ number_or_null_lem id }
{
    match id {
        Some(id) => Value::from(id.get()),
        None => Value::Null,
    }
}

// Bytes as a string, those that aren't plain as `\xNN`.
fn shown(alloc: Global, bytes: &[u8]) -> Result<Value, AllocError>
    ensures { IfOk result (λ v. view v ≡ text_of bytes.now) }
{
    let mut text = Vec::new(alloc);
    if add_escaped(&mut text, bytes).is_err() {
        return Err(AllocError);
    }
    match str::from_utf8(&text) {
        Ok(text) => Value::try_from_str(alloc, text),
        Err(_) => Err(AllocError),
    }
}
