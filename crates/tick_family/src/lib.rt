//! A family of tick files: a tick file in which a time may be a range. Each choice of one number
//! from each range is a member, with a tick file of its own.
#![tactic(auto)]

ghost use Rattle.tick_family.specs.Laws.{ChoiceLaw, MemberLaw, PlainLaw};

mod bytes;
mod entry;
mod extent;
mod family;
mod fault;
mod member;
mod ranges;
mod reading;
mod times;

pub use entry::Entry;
pub use family::Family;
pub use fault::{FamilyErr, Fault};
pub use reading::read_family;
pub use times::Times;

/// The law of choices: each choice of one number from each range is that of exactly one member.
pub fn choice_law()
    ensures { ChoiceLaw }
{}

/// The law of members: the text of each is a valid tick file of at most 1 MiB, and reads back as
/// the member's events.
pub fn member_law()
    ensures { MemberLaw }
{}

/// The law of plain tick files: as a family each has one member, with the same events.
pub fn plain_law()
    ensures { PlainLaw }
{}
