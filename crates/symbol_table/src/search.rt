//! Look-ups along the chains of a list of symbols.

ghost use Rattle.std.specs.Prelude.{◌≡◌, ◌≤◌, ◌<◌, length, take, map, option_copied, vec_capacity, OnOk};
ghost use Rattle.wind_base.specs.Limits.{most_symbols};
ghost use Rattle.symbol_table.specs.Newest.{newest, has_value};
ghost use Rattle.symbol_table.specs.Chains.{most_hashes, hashes_of, AreLinked, AreNamed, AreValued, is_sought, state_of};

use crate::hashes::Hashes;
use crate::links::{Key, Links, hash_name, hash_value};
use crate::symbol::Symbol;
use wind_base::NoMemory;

fn is_sought_for(symbol: &Symbol, global_only: bool, name: &[u8]) -> bool
    ensures { result ≡ is_sought global_only name.now symbol.now }
{
    (!global_only || symbol.global) && symbol.name.bytes() == name
}

/// The newest symbol with the name, or the newest global one.
pub(crate) fn newest_named<'a>(
    list: &'a [Symbol],
    links: &Links,
    name: &[u8],
    global_only: bool,
) -> Option<&'a Symbol>
    requires { AreNamed list.now (state_of links.now) }
    ensures { option_copied result ≡ newest (is_sought global_only name.now) list.now }
{
    let mut at = links.newest(hash_name(name)) as usize;
    while at != 0 {
        let symbol = &list[at - 1];
        if is_sought_for(symbol, global_only, name) {
            return Some(symbol);
        }
        at = links.before[at - 1] as usize;
    }
    None
}

/// The newest symbol with the value.
pub(crate) fn newest_valued<'a>(list: &'a [Symbol], links: &Links, value: u32) -> Option<&'a Symbol>
    requires { AreValued list.now (state_of links.now) }
    ensures { option_copied result ≡ newest (has_value value) list.now }
{
    let mut at = links.newest(hash_value(value)) as usize;
    while at != 0 {
        let symbol = &list[at - 1];
        if symbol.value == value {
            return Some(symbol);
        }
        at = links.before[at - 1] as usize;
    }
    None
}

/// Links the symbols from position `n` on into chains by name, or by value; those before it are.
pub(crate) fn link_from(key: Key, list: &[Symbol], hashes: &[Hashes], links: &mut Links, n: usize)
    requires hashed { hashes.now ≡ map hashes_of list.now }
    requires within { n ≤ length list.now }
    requires few { length list.now ≤ most_symbols }
    requires room { length list.now ≤ vec_capacity links.old.before }
    requires chained { AreLinked key (take n list.now) (state_of links.old) }
    ensures chained { AreLinked key list.now (state_of links.new) }
    ensures heads { length links.new.heads.items ≡ length links.old.heads.items }
    ensures capacity { vec_capacity links.new.before ≡ vec_capacity links.old.before }
{
    for i in n..list.len() {
        links.add(hashes[i].by(key));
    }
}

/// Links the symbols into chains by name, or by value.
pub(crate) fn link(key: Key, list: &[Symbol], hashes: &[Hashes], links: &mut Links)
    requires hashed { hashes.now ≡ map hashes_of list.now }
    requires some { 0 < length links.old.heads.items }
    requires few { length list.now ≤ most_symbols }
    requires room { length list.now ≤ vec_capacity links.old.before }
    ensures chained { AreLinked key list.now (state_of links.new) }
    ensures heads { length links.new.heads.items ≡ length links.old.heads.items }
    ensures capacity { vec_capacity links.new.before ≡ vec_capacity links.old.before }
{
    links.clear();
    link_from(key, list, hashes, links, 0);
}

/// Takes the symbols from position `n` on out of their chains by name, or by value.
fn unlink_from(key: Key, list: &[Symbol], hashes: &[Hashes], links: &mut Links, n: usize)
    requires hashed { hashes.now ≡ map hashes_of list.now }
    requires within { n ≤ length list.now }
    requires chained { AreLinked key list.now (state_of links.old) }
    ensures chained { AreLinked key (take n list.now) (state_of links.new) }
    ensures heads { length links.new.heads.items ≡ length links.old.heads.items }
    ensures capacity { vec_capacity links.new.before ≡ vec_capacity links.old.before }
{
    for i in (n..list.len()).rev() {
        links.remove_newest(hashes[i].by(key));
    }
}

/// Leaves only the symbols before position `n` in their chains by name, or by value. It links
/// those anew or takes the others out, whichever are fewer.
pub(crate) fn leave_first(key: Key, list: &[Symbol], hashes: &[Hashes], links: &mut Links, n: usize)
    requires hashed { hashes.now ≡ map hashes_of list.now }
    requires within { n ≤ length list.now }
    requires few { length list.now ≤ most_symbols }
    requires room { length list.now ≤ vec_capacity links.old.before }
    requires chained { AreLinked key list.now (state_of links.old) }
    ensures chained { AreLinked key (take n list.now) (state_of links.new) }
    ensures heads { length links.new.heads.items ≡ length links.old.heads.items }
    ensures capacity { vec_capacity links.new.before ≡ vec_capacity links.old.before }
{
    if n < list.len() / 2 {
        link(key, &list[..n], &hashes[..n], links);
    } else {
        unlink_from(key, list, hashes, links, n);
    }
}

/// Makes at least `n` chains by name, or by value, with the symbols in them. If memory runs out, the
/// chains stay as they were.
pub(crate) fn widen(
    key: Key,
    list: &[Symbol],
    hashes: &[Hashes],
    links: &mut Links,
    n: u32,
) -> Result<(), NoMemory>
    requires wide { n ≤ most_hashes }
    requires hashed { hashes.now ≡ map hashes_of list.now }
    requires some { 0 < length links.old.heads.items }
    requires few { length list.now ≤ most_symbols }
    requires room { length list.now ≤ vec_capacity links.old.before }
    requires chained { AreLinked key list.now (state_of links.old) }
    ensures chained { AreLinked key list.now (state_of links.new) }
    ensures capacity { vec_capacity links.new.before ≡ vec_capacity links.old.before }
    ensures enough { OnOk result (n ≤ length links.new.heads.items) }
    ensures no_fewer { length links.old.heads.items ≤ length links.new.heads.items }
{
    if n as usize <= links.heads.len() {
        return Ok(());
    }
    links.widen(n)?;
    link(key, list, hashes, links);
    Ok(())
}
