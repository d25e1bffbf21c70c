//! Links between entries with the same hash.

ghost use Rattle.std.specs.Prelude.{◌≡◌, ◌<◌, ◌≤◌, ◌+◌, ◌-◌, ◌%◌, ◌++◌, ◌∷◌, [], length, take, replicate, IfOk, IsOk, OnOk, OnErr, slice_index, slice_set, vec_len, vec_capacity};
ghost use Rattle.wind_base.specs.Limits.{most_symbols};
ghost use Rattle.symbol_table.specs.Chains.{most_hashes, fewest_heads, name_hash, value_hash};

use std::alloc::Global;
use wind_base::NoMemory;

/// The number of hashes, and the most chains of each kind.
const HASHES: u32 = 65_536;

/// The least number of chains.
const FEWEST_HEADS: usize = 64;

/// The hash of the empty name.
const SEED: u32 = 5_381;

/// For each entry, the newest entry before it in its own chain; for each chain, its newest entry.
/// An entry is given by its number, counted from 1, or 0 for none. An entry's chain is its hash
/// modulo the number of chains.
#[derive(Drop)]
pub(crate) struct Links {
    pub(crate) before: Vec<u32>,
    pub(crate) heads: Vec<u32>,
}

/// What decides an entry's chain.
#[derive(Clone, Copy)]
pub(crate) enum Key {
    Name,
    Value,
}

/// The hash of a name.
#[tactic(auto, unfolding(crate::specs::Chains::name_hash))]
pub(crate) fn hash_name(name: &[u8]) -> u32
    ensures value { result ≡ name_hash name.now }
    ensures below { result < most_hashes }
{
    let mut hash = SEED;
    for byte in name {
        hash = (hash * 33 + u32::from(*byte)) % HASHES;
    }
    hash
}

/// The hash of a value.
#[tactic(auto, unfolding(crate::specs::Chains::value_hash))]
pub(crate) fn hash_value(value: u32) -> u32
    ensures value { result ≡ value_hash value }
    ensures below { result < most_hashes }
{
    let product = u64::from(value) * 2_654_435_769 % 0x1_0000_0000;
    (product / u64::from(HASHES)) as u32
}

/// The number of chains when at least `n` are needed and there were `many`.
fn wider(many: usize, n: usize) -> usize
    requires { n ≤ most_hashes }
    ensures enough { n ≤ result }
    ensures no_fewer { many ≤ result }
{
    if n <= many {
        return many;
    }
    usize::max(n, usize::min(2 * many, HASHES as usize))
}

impl Links {
    /// Makes the fewest chains, without entries.
    pub(crate) fn new(alloc: Global) -> Result<Links, NoMemory>
        ensures before { IfOk result (λ l. l.before.items ≡ []) }
        ensures heads { IfOk result (λ l. l.heads.items ≡ replicate fewest_heads 0) }
    {
        let heads = vec![in alloc; 0; FEWEST_HEADS]?;
        Ok(Links {
            before: Vec::new(alloc),
            heads,
        })
    }

    /// Reserves room for `n` more entries.
    pub(crate) fn reserve(&mut self, n: u32) -> Result<(), NoMemory>
        ensures before { self.new.before.items ≡ self.old.before.items }
        ensures heads { self.new.heads.items ≡ self.old.heads.items }
        ensures room { IsOk result → length self.old.before.items + n ≤ vec_capacity self.new.before }
        ensures no_less { vec_capacity self.old.before ≤ vec_capacity self.new.before }
    {
        Ok(self.before.reserve(n as usize)?)
    }

    /// Makes at least `n` chains, and at least twice as many as there were if these are fewer.
    /// Afterwards the entries are not in their proper chains. If memory runs out, nothing changes.
    pub(crate) fn widen(&mut self, n: u32) -> Result<(), NoMemory>
        requires { n ≤ most_hashes }
        ensures before { self.new.before.items ≡ self.old.before.items }
        ensures capacity { vec_capacity self.new.before ≡ vec_capacity self.old.before }
        ensures enough { OnOk result (n ≤ length self.new.heads.items) }
        ensures no_fewer { length self.old.heads.items ≤ length self.new.heads.items }
        ensures stays { OnErr result (self.new.heads.items ≡ self.old.heads.items) }
    {
        let many = wider(self.heads.len(), n as usize);
        Ok(self.heads.resize(many, 0)?)
    }

    /// The newest entry in the chain of a hash.
    pub(crate) fn newest(&self, hash: u32) -> u32
        requires { 0 < length self.now.heads.items }
        ensures { result ≡ slice_index self.now.heads.items (hash % length self.now.heads.items) }
    {
        self.heads[hash as usize % self.heads.len()]
    }

    /// Adds one entry at the head of its hash's chain.
    pub(crate) fn add(&mut self, hash: u32)
        requires some { 0 < length self.old.heads.items }
        requires few { length self.old.before.items < most_symbols }
        requires room { vec_len self.old.before < vec_capacity self.old.before }
        ensures before { self.new.before.items ≡ self.old.before.items
            ++ slice_index self.old.heads.items (hash % length self.old.heads.items) ∷ [] }
        ensures heads { self.new.heads.items ≡ slice_set self.old.heads.items
            (hash % length self.old.heads.items) (length self.old.before.items + 1) }
        ensures capacity { vec_capacity self.new.before ≡ vec_capacity self.old.before }
    {
        let chain = hash as usize % self.heads.len();
        self.before.push_reserved(self.heads[chain]);
        self.heads[chain] = self.before.len() as u32;
    }

    /// Removes the newest entry, which has this hash.
    pub(crate) fn remove_newest(&mut self, hash: u32)
        requires some { 0 < length self.old.heads.items }
        requires entries { 0 < length self.old.before.items }
        ensures before { self.new.before.items ≡ take (length self.old.before.items - 1) self.old.before.items }
        ensures heads { self.new.heads.items ≡ slice_set self.old.heads.items
            (hash % length self.old.heads.items) (slice_index self.old.before.items (length self.old.before.items - 1)) }
        ensures capacity { vec_capacity self.new.before ≡ vec_capacity self.old.before }
    {
        let chain = hash as usize % self.heads.len();
        let Some(older) = self.before.pop() else {
            unreachable!()
        };
        self.heads[chain] = older;
    }

    /// Removes all entries.
    pub(crate) fn clear(&mut self)
        ensures before { self.new.before.items ≡ [] }
        ensures heads { self.new.heads.items ≡ replicate (length self.old.heads.items) 0 }
        ensures capacity { vec_capacity self.new.before ≡ vec_capacity self.old.before }
    {
        self.before.clear();
        self.heads.fill(0);
    }
}
