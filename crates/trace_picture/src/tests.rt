//! Tests of pictures, with ample memory. The expected lines are written by hand.

use crate::layout::Layout;
use crate::objects::add_objects;
use crate::rows::{add_areas, add_names};
use crate::scale::Scale;
use crate::{
    Areas, Kind, Mark, Ownership, Picture, QueueLength, RowName, add_picture, band_of, bar_of,
};
use board_changes::{Awaited, Look, Span, Standing};
use id_table::Ident;
use kernel_world::Actor;
use std::alloc::Global;
use std::test::Fail;
use wind_base::{NoMemory, ShortName};

// A row of the tests.
fn row(id: Ident, name: &[u8]) -> RowName {
    RowName {
        id,
        name: ShortName::cut(name),
    }
}

// What a task of the tests does; it waits for nothing.
fn look(standing: Standing) -> Look {
    Look {
        standing,
        object: None,
        inherits: false,
    }
}

// A span of the tests.
fn span(who: Ident, look: Look, from: u128, to: u128) -> Span {
    Span {
        who,
        look,
        from,
        to,
    }
}

// The areas of spans.
fn areas_of(alloc: Global, spans: &[Span]) -> Result<Areas, NoMemory> {
    let mut areas = Areas::new(alloc);
    for span in spans {
        areas.add(bar_of(span))?;
        if let Some(band) = band_of(span) {
            areas.add(band)?;
        }
    }
    Ok(areas)
}

#[test]
fn draws_areas_and_marks(rt: HostRuntime) -> Result<(), Fail> {
    let one = Ident::new(1).ok_or("id")?;
    let two = Ident::new(2).ok_or("id")?;
    let rows = [row(one, b"tShell"), row(two, b"a<b")];
    let waits = Look {
        standing: Standing::Waiting,
        object: Some(Awaited::Mutex(one)),
        inherits: true,
    };
    let spans = [
        span(one, look(Standing::Running), 0, 2),
        span(one, look(Standing::Ready), 2, 4),
        span(two, waits, 2, 4),
    ];
    let areas = areas_of(rt.alloc(), &spans).or(Err("memory"))?;
    let marks = [
        Mark {
            who: Actor::Task(one),
            time: 1,
            kind: Kind::Exception,
        },
        Mark {
            who: Actor::Task(one),
            time: 1,
            kind: Kind::Exception,
        },
    ];
    let owners = [Ownership {
        mutex: 1,
        owner: 1,
        from: 0,
        to: 4,
    }];
    let picture = Picture {
        rows: &rows,
        areas: areas.list(),
        routines: &[(1, 2)],
        owners: &owners,
        lengths: &[],
        mutexes: &[1],
        queues: &[],
        ticks: &[3, 3],
        marks: &marks,
        start: 0,
        end: 4,
    };
    let mut text = Vec::new(rt.alloc());
    add_picture(rt.alloc(), &mut text, &picture).or(Err("memory"))?;
    let expected = b"<line class=\"tick\" x1=\"1060\" x2=\"1060\" y1=\"60\" y2=\"180\"/>
<text x=\"5\" y=\"72\">interrupt</text>
<rect class=\"running\" x=\"460\" y=\"60\" width=\"300\" height=\"16\">\
<title>interrupt routine, 1 to 2</title></rect>
<text x=\"5\" y=\"102\">1 tShell</text>
<text x=\"5\" y=\"132\">2 a&lt;b</text>
<rect class=\"running\" x=\"160\" y=\"90\" width=\"600\" height=\"16\">\
<title>1 tShell running, 0 to 2</title></rect>
<rect class=\"ready\" x=\"760\" y=\"90\" width=\"600\" height=\"16\">\
<title>1 tShell ready, 2 to 4</title></rect>
<rect class=\"waiting\" x=\"760\" y=\"120\" width=\"600\" height=\"16\">\
<title>2 a&lt;b waiting for mutex 1, 2 to 4</title></rect>
<rect class=\"inherits\" x=\"760\" y=\"137\" width=\"600\" height=\"4\">\
<title>2 a&lt;b waiting, priority inherited, 2 to 4</title></rect>
<text x=\"5\" y=\"162\">mutex 1</text>
<rect class=\"owned\" x=\"160\" y=\"150\" width=\"1200\" height=\"16\">\
<title>mutex 1 owned by 1 tShell, 0 to 4</title></rect>
<text class=\"owner\" x=\"162\" y=\"160\">1 tShell</text>
<path class=\"exception\" d=\"M456 94L464 102M464 94L456 102\"><title>exception at 1</title></path>
<line class=\"axis\" x1=\"160\" x2=\"160\" y1=\"180\" y2=\"185\"/>
<text text-anchor=\"middle\" x=\"160\" y=\"199\">0</text>
<line class=\"axis\" x1=\"460\" x2=\"460\" y1=\"180\" y2=\"185\"/>
<text text-anchor=\"middle\" x=\"460\" y=\"199\">1</text>
<line class=\"axis\" x1=\"760\" x2=\"760\" y1=\"180\" y2=\"185\"/>
<text text-anchor=\"middle\" x=\"760\" y=\"199\">2</text>
<line class=\"axis\" x1=\"1060\" x2=\"1060\" y1=\"180\" y2=\"185\"/>
<text text-anchor=\"middle\" x=\"1060\" y=\"199\">3</text>
<line class=\"axis\" x1=\"1360\" x2=\"1360\" y1=\"180\" y2=\"185\"/>
<text text-anchor=\"middle\" x=\"1360\" y=\"199\">4</text>
<rect class=\"running\" x=\"160\" y=\"210\" width=\"14\" height=\"14\"></rect>
<text x=\"180\" y=\"222\">running</text>
<rect class=\"ready\" x=\"285\" y=\"210\" width=\"14\" height=\"14\"></rect>
<text x=\"305\" y=\"222\">ready</text>
<rect class=\"waiting\" x=\"410\" y=\"210\" width=\"14\" height=\"14\"></rect>
<text x=\"430\" y=\"222\">waiting</text>
<rect class=\"sleeping\" x=\"535\" y=\"210\" width=\"14\" height=\"14\"></rect>
<text x=\"555\" y=\"222\">sleeping</text>
<rect class=\"suspended\" x=\"660\" y=\"210\" width=\"14\" height=\"14\"></rect>
<text x=\"680\" y=\"222\">suspended</text>
<rect class=\"inherits\" x=\"785\" y=\"210\" width=\"14\" height=\"14\"></rect>
<text x=\"805\" y=\"222\">priority inherited</text>
<rect class=\"owned\" x=\"935\" y=\"210\" width=\"14\" height=\"14\"></rect>
<text x=\"955\" y=\"222\">mutex owned</text>
<path class=\"exception\" d=\"M1081 213L1089 221M1089 213L1081 221\"></path>
<text x=\"1100\" y=\"222\">exception</text>
<circle class=\"abort\" cx=\"1200\" cy=\"217\" r=\"4\"></circle>
<text x=\"1210\" y=\"222\">abort</text>
</svg>
";
    assert!(rt; text.as_slice().ends_with(expected));
    Ok(())
}

#[test]
fn divides_a_pixel(rt: HostRuntime) -> Result<(), Fail> {
    let one = Ident::new(1).ok_or("id")?;
    let rows = [row(one, b"tShell")];
    let inherits = Look {
        standing: Standing::Running,
        object: None,
        inherits: true,
    };
    let spans = [
        span(one, inherits, 0, 4),
        span(one, look(Standing::Waiting), 4, 5),
        span(one, look(Standing::Ready), 11, 12),
    ];
    let areas = areas_of(rt.alloc(), &spans).or(Err("memory"))?;
    let picture = Picture {
        rows: &rows,
        areas: areas.list(),
        routines: &[],
        owners: &[],
        lengths: &[],
        mutexes: &[],
        queues: &[],
        ticks: &[],
        marks: &[],
        start: 0,
        end: 12_000,
    };
    let layout = Layout::new(rt.alloc(), &picture).or(Err("memory"))?;
    let mut text = Vec::new(rt.alloc());
    let scale = Scale::new(0, 12_000);
    add_areas(rt.alloc(), &mut text, &picture, &layout, scale).or(Err("memory"))?;
    let expected = b"<rect class=\"running\" x=\"160\" y=\"90\" width=\"1\" height=\"12.80\">\
<title>1 tShell running 80 %, 0 to 5</title></rect>
<rect class=\"waiting\" x=\"160\" y=\"102.80\" width=\"1\" height=\"3.20\">\
<title>1 tShell waiting 20 %, 0 to 5</title></rect>
<rect class=\"inherits\" x=\"160\" y=\"107\" width=\"1\" height=\"3.20\">\
<title>1 tShell inherits a priority 80 %, 0 to 5</title></rect>
<rect class=\"ready\" x=\"161.10\" y=\"90\" width=\"0.10\" height=\"16\">\
<title>1 tShell ready, 11 to 12</title></rect>
";
    assert_eq!(rt; text.as_slice(), expected.as_slice());
    Ok(())
}

// Running with an inherited priority.
fn inheriting() -> Look {
    Look {
        standing: Standing::Running,
        object: None,
        inherits: true,
    }
}

// Bands of less than a pixel are drawn without their bars.
#[test]
fn draws_bands_alone(rt: HostRuntime) -> Result<(), Fail> {
    let one = Ident::new(1).ok_or("id")?;
    let rows = [row(one, b"tShell")];
    let mut areas = Areas::new(rt.alloc());
    for (from, to) in [(0, 4), (5, 6), (11, 12)] {
        let band = band_of(&span(one, inheriting(), from, to)).ok_or("no band")?;
        areas.add(band).or(Err("memory"))?;
    }
    let picture = Picture {
        rows: &rows,
        areas: areas.list(),
        routines: &[],
        owners: &[],
        lengths: &[],
        mutexes: &[],
        queues: &[],
        ticks: &[],
        marks: &[],
        start: 0,
        end: 12_000,
    };
    let layout = Layout::new(rt.alloc(), &picture).or(Err("memory"))?;
    let mut text = Vec::new(rt.alloc());
    let scale = Scale::new(0, 12_000);
    add_areas(rt.alloc(), &mut text, &picture, &layout, scale).or(Err("memory"))?;
    let expected = b"<rect class=\"inherits\" x=\"160\" y=\"107\" width=\"1\" height=\"4\">\
<title>1 tShell inherits a priority 100 %, 0 to 6</title></rect>
<rect class=\"inherits\" x=\"161.10\" y=\"107\" width=\"0.10\" height=\"4\">\
<title>1 tShell running, priority inherited, 11 to 12</title></rect>
";
    assert_eq!(rt; text.as_slice(), expected.as_slice());
    Ok(())
}

// Lives that don't overlap share a row; a queue that a task waited for has a step line.
#[test]
fn shares_rows_and_counts_messages(rt: HostRuntime) -> Result<(), Fail> {
    let one = Ident::new(1).ok_or("id")?;
    let two = Ident::new(2).ok_or("id")?;
    let rows = [row(one, b"first"), row(two, b"second")];
    let waits = Look {
        standing: Standing::Waiting,
        object: Some(Awaited::Receiving(two)),
        inherits: false,
    };
    let spans = [
        span(one, look(Standing::Running), 0, 2),
        span(two, waits, 2, 4),
    ];
    let areas = areas_of(rt.alloc(), &spans).or(Err("memory"))?;
    let lengths = [
        QueueLength {
            queue: 2,
            time: 0,
            messages: 2,
        },
        QueueLength {
            queue: 2,
            time: 1,
            messages: 1,
        },
        QueueLength {
            queue: 2,
            time: 3,
            messages: 0,
        },
    ];
    let picture = Picture {
        rows: &rows,
        areas: areas.list(),
        routines: &[],
        owners: &[],
        lengths: &lengths,
        mutexes: &[],
        queues: &[2],
        ticks: &[],
        marks: &[],
        start: 0,
        end: 4,
    };
    let layout = Layout::new(rt.alloc(), &picture).or(Err("memory"))?;
    let mut text = Vec::new(rt.alloc());
    let scale = Scale::new(0, 4);
    add_names(rt.alloc(), &mut text, &picture, &layout, scale).or(Err("memory"))?;
    add_objects(&mut text, &picture, &layout, scale).or(Err("memory"))?;
    let expected = b"<text x=\"5\" y=\"102\">1 first + 1</text>
<text x=\"5\" y=\"132\">queue 2</text>
<path class=\"length\" d=\"M160 120H160V120H460V128H1060V136H1360\">\
<title>queue 2, at most 2 messages</title></path>
";
    assert_eq!(rt; text.as_slice(), expected.as_slice());
    Ok(())
}
