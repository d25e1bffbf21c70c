//! What a picture shows of a run besides what the tasks did: ticks, routines, marks, who owns mutexes,
//! and how long queues are.

use crate::choice::{Choice, Kind as HappeningKind};
use board_changes::{Awaited, Change, TaskView};
use board_trace::{BeforeStep, Happening, Snapshot, Subject, view_of};
use id_table::Ident;
use kernel_world::Actor;
use std::alloc::Global;
use trace_picture::{
    Area, Kind, Mark, Ownership, Picture, QueueLength, RowName, add_empty_picture, add_picture,
};
use wind_base::NoMemory;
use wind_session::Board;

/// What a picture needs of a run besides what the tasks did.
#[derive(Drop)]
pub(crate) struct Scene {
    // when it begins and ends, in board time; it begins with the first step that is shown
    start: Option<u128>,
    end: Option<u128>,
    rows: Vec<RowName>,
    ticks: Vec<u128>,
    marks: Vec<Mark>,
    routines: Vec<(u128, u128)>,
    // since when a routine is active
    active: Option<u128>,
    // times in which a mutex was owned, and those that go on
    owners: Vec<Ownership>,
    owned: Vec<Ownership>,
    // the lengths of queues, and each queue with its length
    lengths: Vec<QueueLength>,
    queues: Vec<(u32, u32)>,
    // the mutexes and queues that a task waited for
    awaited_mutexes: Vec<u32>,
    awaited_queues: Vec<u32>,
}

/// A moment after a step that is shown.
#[derive(Clone, Copy)]
pub(crate) struct Moment<'a> {
    /// What of the run is shown.
    pub(crate) choice: &'a Choice,
    /// What was read before the step.
    pub(crate) before_step: &'a BeforeStep,
    /// Board time.
    pub(crate) time: u128,
    /// The snapshot.
    pub(crate) after: &'a Snapshot,
}

// Adds an item.
fn push<T: Drop>(list: &mut Vec<T>, item: T) -> Result<(), NoMemory> {
    if list.push(item).is_err() {
        return Err(NoMemory);
    }
    Ok(())
}

// Adds the row of a task.
fn add_row(rows: &mut Vec<RowName>, view: &TaskView) -> Result<(), NoMemory> {
    let row = RowName {
        id: view.id,
        name: view.name.copied(),
    };
    push(rows, row)
}

// Adds the row of a new task.
fn add_spawned(rows: &mut Vec<RowName>, views: &Snapshot, who: Ident) -> Result<(), NoMemory> {
    match view_of(&views.tasks, who.get()) {
        Some(view) => add_row(rows, view),
        None => Ok(()),
    }
}

// Adds an id to these, unless it is one of them.
fn note_id(ids: &mut Vec<u32>, id: Ident) -> Result<(), NoMemory> {
    if ids.last() == Some(&id.get()) || ids.contains(&id.get()) {
        return Ok(());
    }
    push(ids, id.get())
}

// The length of a queue with one message more or less.
fn next_length(queues: &mut Vec<(u32, u32)>, queue: u32, is_more: bool) -> Result<u32, NoMemory> {
    let place = match queues.iter().position(|entry| entry.0 == queue) {
        Some(place) => place,
        None => {
            push(queues, (queue, 0))?;
            queues.len().saturating_sub(1)
        }
    };
    let Some(entry) = queues.get_mut(place) else {
        return Ok(0);
    };
    entry.1 = if is_more {
        entry.1.saturating_add(1)
    } else {
        entry.1.saturating_sub(1)
    };
    Ok(entry.1)
}

// These items if they are shown, else none.
fn shown<T>(is_shown: bool, items: &[T]) -> &[T] {
    if is_shown { items } else { &items[..0] }
}

impl Scene {
    /// A picture with nothing on it, which hasn't begun.
    pub(crate) fn new(alloc: Global) -> Scene {
        Scene {
            start: None,
            end: None,
            rows: Vec::new(alloc),
            ticks: Vec::new(alloc),
            marks: Vec::new(alloc),
            routines: Vec::new(alloc),
            active: None,
            owners: Vec::new(alloc),
            owned: Vec::new(alloc),
            lengths: Vec::new(alloc),
            queues: Vec::new(alloc),
            awaited_mutexes: Vec::new(alloc),
            awaited_queues: Vec::new(alloc),
        }
    }

    /// The picture begins: with the tasks of this snapshot and what they wait for, the owners of
    /// mutexes, and the lengths of queues.
    pub(crate) fn open(&mut self, board: &Board, views: &Snapshot) -> Result<(), NoMemory> {
        self.start = Some(board.time());
        for view in &views.tasks {
            self.open_task(view)?;
        }
        self.open_mutexes(board)?;
        self.open_queues(board)?;
        self.look(board)
    }

    // Adds the row of a task, and notes what it waits for.
    fn open_task(&mut self, view: &TaskView) -> Result<(), NoMemory> {
        add_row(&mut self.rows, view)?;
        match &view.wait {
            Some(object) => self.note_awaited(object),
            None => Ok(()),
        }
    }

    // Notes what a task waits for, if it is a mutex or a queue.
    fn note_awaited(&mut self, object: &Awaited) -> Result<(), NoMemory> {
        match object {
            Awaited::Mutex(id) => note_id(&mut self.awaited_mutexes, *id),
            Awaited::Receiving(id) | Awaited::Sending(id) => note_id(&mut self.awaited_queues, *id),
            Awaited::Semaphore(_) | Awaited::Deletion(_) | Awaited::Console => Ok(()),
        }
    }

    // Notes who owns mutexes.
    fn open_mutexes(&mut self, board: &Board) -> Result<(), NoMemory> {
        let mutexes = board.world().objects.mutexes.table();
        for place in 0..mutexes.len() {
            if let Some(owner) = mutexes.value_at(place).owner {
                self.own(mutexes.id_at(place).get(), owner.get(), board.time())?;
            }
        }
        Ok(())
    }

    // Notes how many messages queues hold.
    fn open_queues(&mut self, board: &Board) -> Result<(), NoMemory> {
        let queues = board.world().objects.queues.table();
        for place in 0..queues.len() {
            let length = QueueLength {
                queue: queues.id_at(place).get(),
                time: board.time(),
                messages: queues.value_at(place).count(),
            };
            push(&mut self.queues, (length.queue, length.messages))?;
            push(&mut self.lengths, length)?;
        }
        Ok(())
    }

    /// Looks at the interrupt level.
    pub(crate) fn look(&mut self, board: &Board) -> Result<(), NoMemory> {
        match (self.active, board.world().watch.active()) {
            (None, true) => self.active = Some(board.time()),
            (Some(from), false) => {
                self.active = None;
                push(&mut self.routines, (from, board.time()))?;
            }
            (None, false) | (Some(_), true) => {}
        }
        Ok(())
    }

    // Notes an exception or an abort.
    fn mark(&mut self, who: Actor, time: u128, kind: Kind) -> Result<(), NoMemory> {
        push(&mut self.marks, Mark { who, time, kind })
    }

    // Notes that a mutex gets an owner.
    fn own(&mut self, mutex: u32, owner: u32, time: u128) -> Result<(), NoMemory> {
        let held = Ownership {
            mutex,
            owner,
            from: time,
            to: time,
        };
        push(&mut self.owned, held)
    }

    // Notes that a mutex loses its owner.
    fn free(&mut self, mutex: u32, time: u128) -> Result<(), NoMemory> {
        let place = self.owned.iter().position(|held| held.mutex == mutex);
        let place = place.unwrap_or(self.owned.len());
        if place >= self.owned.len() {
            return Ok(());
        }
        let held = self.owned.remove(place);
        push(&mut self.owners, Ownership { to: time, ..held })
    }

    // Notes that a queue gets a message or loses one.
    fn count(&mut self, queue: u32, is_more: bool, time: u128) -> Result<(), NoMemory> {
        let messages = next_length(&mut self.queues, queue, is_more)?;
        let length = QueueLength {
            queue,
            time,
            messages,
        };
        push(&mut self.lengths, length)
    }

    // Notes what changes the rows, owners and queues of a picture, and what tasks wait for, whatever it
    // shows.
    fn follow(&mut self, happening: &Happening, moment: &Moment) -> Result<(), NoMemory> {
        match happening {
            Happening::Changed(Change::Spawned { who, .. }) => {
                add_spawned(&mut self.rows, moment.after, *who)
            }
            Happening::Changed(Change::Waits { object, .. }) => self.note_awaited(object),
            Happening::Owned { mutex, owner } => self.own(*mutex, *owner, moment.time),
            Happening::Freed { mutex, .. } => self.free(*mutex, moment.time),
            Happening::Queued { queue, .. } => self.count(*queue, true, moment.time),
            Happening::Taken { queue, .. } => self.count(*queue, false, moment.time),
            _ => Ok(()),
        }
    }

    // Notes what is shown at the beginning of the step in which it happened.
    fn note(&mut self, happening: &Happening, start: u128) -> Result<(), NoMemory> {
        match happening {
            Happening::Tick { .. } => push(&mut self.ticks, start),
            Happening::Exception { who, .. } => self.mark(*who, start, Kind::Exception),
            Happening::Abort => self.mark(Actor::Task(Ident::shell()), start, Kind::Abort),
            _ => Ok(()),
        }
    }

    /// Notes what happened in the step before this moment.
    pub(crate) fn note_all(&mut self, list: &[Happening], moment: &Moment) -> Result<(), NoMemory> {
        for happening in list {
            self.follow(happening, moment)?;
            if moment.choice.has(moment.before_step.step, happening) {
                self.note(happening, moment.before_step.time)?;
            }
        }
        Ok(())
    }

    // The mutexes that are owned at the end are owned up to it.
    fn close_owned(&mut self, end: u128) -> Result<(), NoMemory> {
        for held in &self.owned {
            push(&mut self.owners, Ownership { to: end, ..*held })?;
        }
        self.owned.clear();
        Ok(())
    }

    /// No step after this board time is shown. If the picture has ended, it stays as it is.
    pub(crate) fn close(&mut self, end: u128) -> Result<(), NoMemory> {
        if self.end.is_some() {
            return Ok(());
        }
        self.end = Some(end);
        if let Some(from) = self.active {
            push(&mut self.routines, (from, end))?;
        }
        self.close_owned(end)
    }

    /// Adds the picture of a choice, with these areas.
    pub(crate) fn draw(
        &self,
        alloc: Global,
        text: &mut Vec<u8>,
        choice: &Choice,
        areas: &[Area],
    ) -> Result<(), NoMemory> {
        let (Some(start), Some(end)) = (self.start, self.end) else {
            return add_empty_picture(text);
        };
        let has_owners = choice.has_kind(HappeningKind::Owners);
        let has_messages = choice.has_kind(HappeningKind::Messages);
        let has_level = choice.has_subject(Subject::Interrupt)
            && choice.has_kind(HappeningKind::Routines);
        let picture = Picture {
            rows: &self.rows,
            areas,
            routines: shown(has_level, &self.routines),
            owners: shown(has_owners, &self.owners),
            lengths: shown(has_messages, &self.lengths),
            mutexes: shown(has_owners, &self.awaited_mutexes),
            queues: shown(has_messages, &self.awaited_queues),
            ticks: &self.ticks,
            marks: &self.marks,
            start,
            end,
        };
        add_picture(alloc, text, &picture)
    }
}
