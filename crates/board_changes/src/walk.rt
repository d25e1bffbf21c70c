//! Searches by id along a list: each goes on where the one before it stopped. Over a list by rising
//! id, searches for rising ids read it once together.

ghost use Rattle.std.specs.Prelude.{◌≡◌, ◌≤◌, ℕ, true, option_copied};
ghost use Rattle.id_table.specs.Records.{StandsAt, of_id};
ghost use Rattle.board_changes.specs.Walks.{HasPassed};

use id_table::Ident;

/// Something with an id.
pub(crate) trait Identified {
    ghost number: { Self → ℕ };

    /// Its id.
    fn ident(&self) -> Ident
        ensures { result ≡ number self.now };
}

/// Where a walk along a list stands: the ids before a place are below a bound.
#[derive(Clone, Copy)]
pub(crate) struct Walk {
    place: usize,
    bound: u32,
}

/// The beginning of a list.
pub(crate) const START: Walk = Walk { place: 0, bound: 0 };

// The first place from this one on at which an id isn't below this one.
fn passed<V: Identified>(list: &[V], from: usize, id: u32) -> usize
    requires { HasPassed V.number list.now from id }
    ensures { HasPassed V.number list.now result id }
{
    let mut place = from;
    while place < list.len() {
        if list[place].ident().get() >= id {
            return place;
        }
        place += 1;
    }
    place
}

// The first item with this id.
fn first_of<V: Identified>(list: &[V], id: Ident) -> Option<&V>
    ensures { option_copied result ≡ of_id V.number list.now id }
{
    list.iter().find(|item| item.ident() == id)
}

// The place at which a walk goes on: the beginning, if it has passed ids that aren't below this one.
fn going_on<V: Identified>(list: &[V], walk: Walk, id: u32) -> usize
    requires { HasPassed V.number list.now walk.place walk.bound }
    ensures { HasPassed V.number list.now result id }
{
    if id < walk.bound { 0 } else { walk.place }
}

// The first item with this id, sought from where the walk stands.
fn sought<'a, V: Identified>(list: &'a [V], walk: &mut Walk, id: Ident) -> Option<&'a V>
    requires { HasPassed V.number list.now walk.old.place walk.old.bound }
    ensures value { option_copied result ≡ of_id V.number list.now id }
    ensures passed { HasPassed V.number list.now walk.new.place walk.new.bound }
{
    let from = going_on(list, *walk, id.get());
    let place = passed(list, from, id.get());
    *walk = Walk {
        place,
        bound: id.get(),
    };
    first_of(&list[place..], id)
}

// Whether the walk stands at an item with this id, and has passed lower ids only.
#[inline(always)]
fn stands_at<V: Identified>(list: &[V], walk: Walk, id: Ident) -> bool
    ensures at { result ≡ true → StandsAt V.number list.now id walk.place }
    ensures bound { result ≡ true → walk.bound ≤ id }
{
    if id.get() < walk.bound || walk.place >= list.len() {
        return false;
    }
    list[walk.place].ident() == id
}

/// The first item with this id, sought from where the walk stands.
#[inline(always)]
pub(crate) fn found<'a, V: Identified>(list: &'a [V], walk: &mut Walk, id: Ident) -> Option<&'a V>
    requires { HasPassed V.number list.now walk.old.place walk.old.bound }
    ensures value { option_copied result ≡ of_id V.number list.now id }
    ensures passed { HasPassed V.number list.now walk.new.place walk.new.bound }
{
    let place = walk.place;
    if !stands_at(list, *walk, id) {
        return sought(list, walk, id);
    }
    *walk = Walk {
        place: place + 1,
        bound: id.get() + 1,
    };
    Some(&list[place])
}
