//! Reads a family.

ghost use Rattle.std.specs.Prelude.{◌≡◌, ◌+◌, ◌∷◌, ℕ, List, OnOk, IfOk, IfErr, Ok};
ghost use Rattle.tick_family.specs.Members.{members_of};
ghost use Rattle.tick_family.specs.Reading.{read_from, family_of, Tells};
ghost use Rattle.tick_family.specs.Inside.{IsWithin, IsEntry, IsFamily, before_all};
ghost use Rattle.tick_family.specs.Entries.{content_of};
ghost use Rattle.tick_family.specs.declared.fault.FamilyErr.TheVariants as errors;
ghost use Rattle.std.specs.List.{All};

use crate::entry::{Content, Entry, line_content};
use crate::extent::{Extent, grown, no_entries};
use crate::family::Family;
use crate::fault::FamilyErr;
use source_text::after_line;
use std::alloc::Global;
use tick_file::first_line;

// The entries of a text so far, and how far they reach.
#[derive(Drop)]
struct Kept {
    entries: Vec<Entry>,
    extent: Extent,
}

// The content of a line, or the error that memory ran out.
fn content_at(alloc: Global, text: &[u8]) -> Result<Content, FamilyErr>
    ensures value { IfOk result (λ content. content ≡ content_of text.now) }
    ensures memory { IfErr result (λ e. e ≡ errors.NoMemory) }
{
    match line_content(alloc, text) {
        Ok(content) => Ok(content),
        Err(_) => Err(FamilyErr::NoMemory),
    }
}

// Adds the entry of line number `line`, if it has one.
fn keep(alloc: Global, kept: &mut Kept, line: u64, text: &[u8]) -> Result<(), FamilyErr>
    requires within { IsWithin kept.old.extent }
    requires members { kept.old.extent.members ≡ members_of kept.old.entries.items }
    ensures good { OnOk result ((more : List (List ℕ)) → before_all kept.new.entries.items (read_from (line + 1) kept.new.extent more)
        ≡ before_all kept.old.entries.items (read_from line kept.old.extent (text.now ∷ more))) }
    ensures within { OnOk result (IsWithin kept.new.extent) }
    ensures members { OnOk result (kept.new.extent.members ≡ members_of kept.new.entries.items) }
    ensures bad { IfErr result (λ e. (more : List (List ℕ)) → Tells (read_from line kept.old.extent (text.now ∷ more)) e) }
{
    let entry = match content_at(alloc, text)? {
        Content::Nothing => return Ok(()),
        Content::Bad(fault) => return Err(FamilyErr::BadLine(line, fault)),
        Content::Asks(entry) => entry,
    };
    let extent = match grown(kept.extent, entry) {
        Ok(extent) => extent,
        Err(fault) => return Err(FamilyErr::BadLine(line, fault)),
    };
    if kept.entries.push(entry).is_err() {
        return Err(FamilyErr::NoMemory);
    }
    kept.extent = extent;
    Ok(())
}

/// Reads a family. The first bad line is named, counted from 1, with what is wrong with it.
pub fn read_family(alloc: Global, text: &[u8]) -> Result<Family, FamilyErr>
    ensures value { IfOk result (λ family. family_of text.now ≡ Ok family) }
    ensures bad { IfErr result (Tells (family_of text.now)) }
{
    let mut kept = Kept {
        entries: Vec::new(alloc),
        extent: no_entries(),
    };
    let mut line = 0;
    let mut rest = text;
    while !rest.is_empty() {
        line += 1;
        keep(alloc, &mut kept, line, first_line(rest))?;
        rest = after_line(rest);
    }
    let Kept { entries, extent } = kept;
    Ok(Family::new(entries, extent.members))
}
