//! What of a run a picture shows.

ghost use Rattle.std.specs.Prelude.{◌≡◌, ◌++◌, ◌∷◌, [], OnOk};
ghost use Rattle.std.specs.List.{filter};
ghost use Rattle.trace_session.specs.Choice.{choice_state};
ghost use Rattle.trace_session.specs.Shown.{kind_of_area as kind_of_area_lem, kind_of_standing as kind_of_standing_lem, shown_areas, shows};

use crate::choice::{Choice, Kind};
use board_changes::{Span, Standing};
use board_trace::Subject;
use trace_picture::{Area, AreaKind, Areas, band_of, bar_of};
use wind_base::NoMemory;

/// The kind of what a task does.
pub(crate) fn kind_of_standing(standing: Standing) -> Kind
    ensures { result ≡ kind_of_standing_lem standing }
{
    match standing {
        Standing::Running | Standing::Ready => Kind::Runs,
        Standing::Waiting | Standing::Sleeping => Kind::Waits,
        Standing::Suspended => Kind::Tasks,
    }
}

// The kind of an area.
fn kind_of_area(area: &Area) -> Kind
    ensures { result ≡ kind_of_area_lem area.now }
{
    match area.kind {
        AreaKind::Bar => kind_of_standing(area.title.standing),
        AreaKind::Band => Kind::Priorities,
    }
}

// A picture of a choice shows an area.
fn shows_area(choice: &Choice, area: &Area) -> bool
    ensures { result ≡ shows (choice_state choice.now) area.now }
{
    choice.has_subject(Subject::Task(area.row.get())) && choice.has_kind(kind_of_area(area))
}

// Adds an area, if a picture of a choice shows it.
fn add_if_shown(areas: &mut Areas, choice: &Choice, area: Area) -> Result<(), NoMemory>
    ensures { OnOk result (areas.new ≡ areas.old ++ filter (shows (choice_state choice.now)) (area ∷ [])) }
{
    if shows_area(choice, &area) {
        return areas.add(area);
    }
    Ok(())
}

// Adds the areas of a span that a picture of a choice shows.
fn add_span(areas: &mut Areas, choice: &Choice, span: &Span) -> Result<(), NoMemory>
    ensures { OnOk result (areas.new ≡ areas.old ++ shown_areas (choice_state choice.now) (span.now ∷ [])) }
{
    add_if_shown(areas, choice, bar_of(span))?;
    match band_of(span) {
        Some(band) => add_if_shown(areas, choice, band),
        None => Ok(()),
    }
}

/// Adds the areas of spans that a picture of a choice shows.
pub(crate) fn add_spans(areas: &mut Areas, choice: &Choice, spans: &[Span]) -> Result<(), NoMemory>
    ensures { OnOk result (areas.new ≡ areas.old ++ shown_areas (choice_state choice.now) spans.now) }
{
    for span in spans {
        add_span(areas, choice, span)?;
    }
    Ok(())
}
