//! Postfix code, and the values that it works on.

ghost use Rattle.std.specs.Prelude.{◌≡◌, ◌+◌, ◌-◌, ◌<◌, ◌≤◌, [], ◌∷◌, ◌++◌, length, drop, reverse, OnOk, IfOk, MatchOption};
ghost use Rattle.shell_eval.specs.Machine.{top_word, top_entry, below};

use shell_parse::{BinOp, UnOp};
use std::alloc::Global;
use std::marker::Model;
use wind_base::{Name, NoMemory};

/// How a left side acts before its right side runs.
#[derive(Clone, Copy, Debug, PartialEq, Eq)]
pub enum LeftSide {
    /// It decides if it is 0: `&&`.
    All,
    /// It decides if it isn't 0: `||`.
    Any,
    /// It is the address of an assignment, with the operator before the `=`, if there is one.
    Place(Option<BinOp>),
}

/// One operation.
#[derive(Drop)]
pub enum Op {
    /// Pushes a number.
    Push(u32),
    /// Pushes the address of a string's block.
    Str(Text),
    /// Pushes the word of a name.
    Name(Name),
    /// Calls a text symbol, or pushes the word of a name.
    Lone(Name),
    /// Pushes the value of a name.
    Address(Name),
    /// Replaces an address by the word there.
    Word,
    /// Replaces an operand by the value of the operator.
    Unary(UnOp),
    /// Replaces two operands by the value of the operator.
    Binary(BinOp),
    /// Takes a left side. If it decides, only this many of the last operations stay.
    LeftSide(LeftSide, usize),
    /// Looks up the name of an assignment.
    Left(Option<BinOp>, Name),
    /// Pushes the value of the form that a left side began; its right side is on top.
    Close,
    /// Calls with this many arguments.
    Call(usize),
}

/// A value, or a left side that was taken.
#[derive(Drop)]
pub enum Entry {
    /// A value.
    Word(u32),
    /// The form asks whether the right side is not 0.
    Truth,
    /// The right side goes to this address.
    Place(u32),
    /// The operator is applied to this word and the right side, and its value goes to this address:
    /// operator, address, word.
    Mixed(BinOp, u32, u32),
    /// The right side goes to a new variable of this name.
    Unknown(Name),
}

/// The bytes of a string, stored with the zero that ends them in memory. Contracts see them without
/// it.
#[derive(Drop)]
pub struct Text {
    kept: Vec<u8>,
}

impl Model for Text {
    ghost use Rattle.std.specs.Prelude.{◌≡◌, ℕ, List, ◌-◌, [], ◌∷◌, ◌++◌, length, take};

    ghost Value = { List ℕ };

    ghost view = { λ t. take (length t.kept.items - 1) t.kept.items };

    ghost invariant = { λ t. t.kept.items ≡ take (length t.kept.items - 1) t.kept.items ++ 0 ∷ [] };
}

impl Text {
    /// A copy of these bytes.
    #[tactic(auto, using(crate::proofs::Reversed::all_but_last))]
    pub fn new(alloc: Global, bytes: &[u8]) -> Result<Text, NoMemory>
        ensures { IfOk result (λ text. text ≡ bytes.now) }
    {
        let mut kept = bytes.to_vec(alloc)?;
        if kept.push(0).is_err() {
            return Err(NoMemory);
        }
        Ok(Text { kept })
    }

    /// The bytes, followed by a zero.
    pub fn with_zero(&self) -> &[u8]
        ensures { result.now ≡ self.now ++ 0 ∷ [] }
    {
        &self.kept
    }
}

/// Operations, next one first.
#[derive(Drop)]
pub struct Code {
    ops: Vec<Op>,
}

impl Model for Code {
    ghost use Rattle.std.specs.Prelude.{List, reverse};
    ghost use Rattle.shell_eval.specs.declared.code.Op.{Op};

    ghost Value = { List Op };

    ghost view = { λ c. reverse c.ops.items };
}

impl Code {
    /// Makes code without operations.
    pub fn new(alloc: Global) -> Code
        ensures { result ≡ [] }
    {
        Code {
            ops: Vec::new(alloc),
        }
    }

    /// How many operations there are.
    pub fn len(&self) -> usize
        ensures { result ≡ length self.now }
    {
        self.ops.len()
    }

    /// Puts an operation before the others.
    pub fn push(&mut self, op: Op) -> Result<(), NoMemory>
        ensures { OnOk result (self.new ≡ op ∷ self.old) }
    {
        if self.ops.push(op).is_err() {
            return Err(NoMemory);
        }
        Ok(())
    }

    /// Takes the next operation, if there is one.
    pub fn pop(&mut self) -> Option<Op>
        ensures { MatchOption result ((self.old ≡ []) × (self.new ≡ [])) (λ op. self.old ≡ op ∷ self.new) }
    {
        self.ops.pop()
    }

    /// Drops all operations.
    pub fn clear(&mut self)
        ensures { self.new ≡ [] }
    {
        self.ops.clear();
    }

    /// Drops all operations except the last `n`.
    #[tactic(auto, using(crate::proofs::Reversed::drop_all_but))]
    pub fn keep(&mut self, n: usize)
        ensures { self.new ≡ drop (length self.old - n) self.old }
    {
        self.ops.truncate(n);
    }
}

/// Entries, last one first, and room for more.
#[derive(Drop)]
pub struct Stack {
    entries: Vec<Entry>,
    room: usize,
}

impl Model for Stack {
    ghost use Rattle.std.specs.Prelude.{◌+◌, ◌≤◌, vec_capacity, vec_len, reverse};
    ghost use Rattle.shell_eval.specs.Room.{Entries};

    ghost Value = { Entries };

    ghost view = { λ s. record { list = reverse s.entries.items; room = s.room } };

    ghost invariant = { λ s. vec_len s.entries + s.room ≤ vec_capacity s.entries };
}

impl Stack {
    /// Makes a stack without entries, with room for this many.
    pub fn with_room(alloc: Global, n: usize) -> Result<Stack, NoMemory>
        ensures { IfOk result (λ s. s ≡ record { list = []; room = n }) }
    {
        let entries = Vec::with_capacity(alloc, n)?;
        Ok(Stack { entries, room: n })
    }

    /// Pushes an entry.
    pub fn put(&mut self, entry: Entry)
        requires { 0 < self.old.room }
        ensures { self.new ≡ record { list = entry ∷ self.old.list; room = self.old.room - 1 } }
    {
        self.room -= 1;
        let _ = self.entries.push(entry);
    }

    /// Takes the top entry.
    pub fn take_entry(&mut self) -> Option<Entry>
        ensures top { result ≡ top_entry self.old.list }
        ensures list { self.new.list ≡ below self.old.list }
        ensures room { self.old.room ≤ self.new.room }
    {
        let top = self.entries.pop();
        if top.is_some() {
            self.room += 1;
        }
        top
    }

    /// The value below the top `n` entries.
    #[tactic(auto, using(crate::proofs::Reversed::drop_reverse))]
    pub fn word_below(&self, n: usize) -> u32
        ensures { result ≡ top_word (drop n self.now.list) }
    {
        let left = self.entries.len().saturating_sub(n);
        last_word(&self.entries[..left])
    }

    /// Removes all entries.
    pub fn clear(&mut self)
        ensures list { self.new.list ≡ [] }
        ensures room { self.old.room ≤ self.new.room }
    {
        self.room += self.entries.len();
        self.entries.clear();
    }

    /// Removes the top `n` entries.
    #[tactic(auto, using(crate::proofs::Reversed::drop_reverse))]
    pub fn drop_top(&mut self, n: usize)
        ensures list { self.new.list ≡ drop n self.old.list }
        ensures room { self.old.room ≤ self.new.room }
    {
        let left = self.entries.len().saturating_sub(n);
        self.room += self.entries.len() - left;
        self.entries.truncate(left);
    }
}

// The value of the last entry.
fn last_word(entries: &[Entry]) -> u32
    ensures { result ≡ top_word (reverse entries.now) }
{
    match entries.last() {
        Some(entry) => word_of(entry),
        None => 0,
    }
}

// The value of an entry.
fn word_of(entry: &Entry) -> u32
    ensures { result ≡ top_word (entry.now ∷ []) }
{
    match entry {
        Entry::Word(n) => *n,
        _ => 0,
    }
}

/// Takes the value on top; 0 if there is none.
pub(crate) fn take_word(stack: &mut Stack) -> u32
    ensures word { result ≡ top_word stack.old.list }
    ensures list { stack.new.list ≡ below stack.old.list }
    ensures room { stack.old.room ≤ stack.new.room }
{
    match stack.take_entry() {
        Some(entry) => word_of(&entry),
        None => 0,
    }
}
