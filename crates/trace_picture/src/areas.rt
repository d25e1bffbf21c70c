//! A picture as a list of areas.

ghost use Rattle.std.specs.Prelude.{◌≡◌, ◌++◌, ◌∷◌, [], OnOk};
ghost use Rattle.trace_picture.specs.Areas.{area_of as area_of_lem, band_of as band_of_lem};
ghost use Rattle.trace_picture.specs.declared.areas.AreaKind.TheVariants as kinds;

use crate::list::push;
use board_changes::{Awaited, Look, Span};
use id_table::Ident;
use std::alloc::Global;
use std::marker::Model;
use wind_base::NoMemory;

/// What an area is drawn as.
#[derive(Clone, Copy, Debug, PartialEq, Eq)]
pub enum AreaKind {
    /// A bar, coloured by what the task did.
    Bar,
    /// A band below the bar: the task inherits a priority.
    Band,
}

/// A stretch of board time in the row of a task.
#[derive(Clone, Copy, Debug, PartialEq, Eq)]
pub struct Area {
    // small fields together take less room
    /// The task whose row it is in.
    pub row: Ident,
    /// What the task did.
    pub title: Look,
    /// What it is drawn as.
    pub kind: AreaKind,
    /// From when, in board time.
    pub from: u128,
    /// Until when; it is after `from`.
    pub to: u128,
}

/// The areas of a picture.
#[derive(Drop)]
pub struct Areas {
    list: Vec<Area>,
}

impl Model for Areas {
    ghost use Rattle.std.specs.Prelude.{List};
    ghost use Rattle.trace_picture.specs.declared.areas.Area.{Area};

    ghost Value = { List Area };

    ghost view = { λ a. a.list.items };
}

impl Areas {
    /// No areas.
    pub fn new(alloc: Global) -> Areas
        ensures { result ≡ [] }
    {
        Areas {
            list: Vec::new(alloc),
        }
    }

    /// Adds an area at the end.
    pub fn add(&mut self, area: Area) -> Result<(), NoMemory>
        ensures { OnOk result (self.new ≡ self.old ++ area ∷ []) }
    {
        let object: Option<Awaited> = area.title.object;
        let title = Look {
            object,
            ..area.title
        };
        push(&mut self.list, Area { title, ..area })
    }

    /// The areas, in the order in which their spans ended.
    pub fn list(&self) -> &[Area]
        ensures { result.now ≡ self.now }
    {
        &self.list
    }
}

// The area of this kind that a span has.
fn area_of(kind: AreaKind, span: &Span) -> Area
    ensures { result ≡ area_of_lem kind span.now }
{
    let object: Option<Awaited> = span.look.object;
    Area {
        row: span.who,
        from: span.from,
        to: span.to,
        kind,
        title: Look {
            object,
            ..span.look
        },
    }
}

/// The bar of a span.
pub fn bar_of(span: &Span) -> Area
    ensures { result ≡ area_of_lem kinds.Bar span.now }
{
    area_of(AreaKind::Bar, span)
}

/// The band of a span, if its task inherits a priority.
pub fn band_of(span: &Span) -> Option<Area>
    ensures { result ≡ band_of_lem span.now }
{
    if span.look.inherits {
        return Some(area_of(AreaKind::Band, span));
    }
    None
}
