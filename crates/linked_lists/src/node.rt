//! The nodes of a list, and its two ends.

ghost use Rattle.std.specs.Option.{ForSome};
ghost use Rattle.std.specs.Prelude.{◌≡◌, ◌<◌, length};
ghost use Rattle.slab.specs.Slab.{ContainsKey};
ghost use Rattle.linked_lists.specs.Inside.{aimed, key_before, goes, aim};

use slab::Slab;

// A node: the list that it is in, the keys of its neighbours there, and its value.
#[derive(Drop)]
pub(crate) struct Node<T> {
    pub(crate) list: usize,
    pub(crate) before: Option<usize>,
    pub(crate) after: Option<usize>,
    pub(crate) value: T,
}

// The keys of a list's first and last node.
#[derive(Clone, Copy, Drop)]
pub(crate) struct Ends {
    pub(crate) first: Option<usize>,
    pub(crate) last: Option<usize>,
}

// The key of the node before `next` in its list. If `next` is none, the key of the last node of the
// list.
pub(crate) fn node_before<T>(
    nodes: &Slab<Node<T>>,
    ends: &[Ends],
    list: usize,
    next: Option<usize>,
) -> Option<usize>
    requires list { list < length ends.now }
    requires next { ForSome next (λ key. ContainsKey nodes.now key) }
    ensures { result ≡ key_before nodes.now ends.now list next }
{
    match next {
        Some(key) => nodes[key].before,
        None => ends[list].last,
    }
}

// Which link of a node: to the node after it, or to the one before it.
#[derive(Clone, Copy)]
pub(crate) enum Side {
    After,
    Before,
}

// Sets a link of the node `from` to `to`. If `from` is none, `to` becomes an end of the list: its
// first node by the link `After`, its last by `Before`.
#[inline(always)]
pub(crate) fn link<T>(
    nodes: &mut Slab<Node<T>>,
    ends: &mut Vec<Ends>,
    list: usize,
    side: Side,
    from: Option<usize>,
    to: Option<usize>,
)
    requires list { list < length ends.old.items }
    requires from { ForSome from (λ key. ContainsKey nodes.old key) }
    ensures nodes { nodes.new ≡ aimed nodes.old from (goes side to) }
    ensures ends { ends.new.items ≡ aim side ends.old.items list from to }
{
    match (side, from) {
        (Side::After, Some(key)) => nodes[key].after = to,
        (Side::After, None) => ends[list].first = to,
        (Side::Before, Some(key)) => nodes[key].before = to,
        (Side::Before, None) => ends[list].last = to,
    }
}
