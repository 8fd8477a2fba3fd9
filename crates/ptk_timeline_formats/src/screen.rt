//! What is shown of a partition, and what is not shown yet.

ghost use Rattle.std.specs.Prelude.{◌<◌, length};

use crate::change::{Change, ShownSince};
use crate::fault::PutFault;
use crate::sheet::Sheet;
use crate::shown::{Doing, Shown};
use ptk_tracepoints::{Change as Told, Event, PartState, PartStatus, System, ThreadState};
use ptk_words::{PartId, THREAD_LIMIT, ThreadNo};
use std::alloc::{AllocError, Global};
use std::io::Write;

/// A thread: what was written of it, and what it does now.
#[derive(Clone, Copy)]
struct Row {
    kept: ShownSince,
    state: ThreadState,
    start: Option<u32>,
    waker: Option<ThreadNo>,
    // whether it may be shown otherwise than it was written
    is_touched: bool,
}

impl Row {
    /// A thread in a state at a tick, from its first pc on if it starts there.
    fn new(state: &ThreadState, start: Option<u32>, at: u64) -> Row {
        Row {
            kept: ShownSince {
                shown: Shown::of(state, false),
                since: at,
            },
            state: *state,
            start,
            waker: None,
            is_touched: false,
        }
    }

    /// Writes what is shown from a tick on if that is new, a step of the thread taking up the tick or not.
    fn put<W: Write>(
        &mut self,
        p: PartId,
        thread: ThreadNo,
        is_step: bool,
        tick: u64,
        sheet: &mut Sheet<'_, '_>,
        out: &mut W,
    ) -> Result<(), PutFault> {
        let waker = self.waker;
        self.waker = None;
        self.is_touched = false;
        let shown = Shown::of(&self.state, is_step);
        if shown == self.kept.shown {
            return Ok(());
        }
        if self.kept.shown.is_free() {
            let start = self.start;
            let first = Change::First {
                thread,
                shown: &shown,
                start,
            };
            sheet.put(p, tick, &first, out)?;
        } else {
            let next = Change::Next {
                thread,
                before: &self.kept,
                now: &shown,
            };
            sheet.put(p, tick, &next, out)?;
        }
        self.kept = ShownSince { shown, since: tick };
        match waker {
            Some(by) => sheet.put(p, tick, &Change::Woken { by, thread }, out),
            None => Ok(()),
        }
    }
}

/// Puts a thread in a state at a tick at the end, from its first pc on if it starts there.
fn add_row(
    rows: &mut Vec<Row>,
    state: &ThreadState,
    start: Option<u32>,
    at: u64,
) -> Result<(), AllocError> {
    let row = Row::new(state, start, at);
    add(rows, &row)
}

/// Puts a copy of an item at the end of a list.
fn add<T: Copy>(list: &mut Vec<T>, item: &T) -> Result<(), AllocError> {
    list.push(*item)?;
    Ok(())
}

/// A step that takes up its ticks: its thread, and the tick after its last.
#[derive(Clone, Copy)]
struct Step {
    thread: ThreadNo,
    until: u64,
}

/// What is shown of a partition by itself.
#[derive(Clone, Copy)]
struct Outline {
    status: PartStatus,
    runner: Option<ThreadNo>,
}

impl Outline {
    /// That of a partition now.
    fn of(part: &PartState) -> Outline {
        Outline {
            status: part.status(),
            runner: part.runner(),
        }
    }
}

/// What is shown of a partition, and what has come at a tick and is not shown yet.
#[derive(Drop)]
pub(crate) struct Screen {
    part: PartId,
    written: Outline,
    rows: Vec<Row>,
    at: u64,
    now: Outline,
    step: Option<Step>,
    // the tick after the ticks that are lost and not written yet, and after those that were lost last
    lost: Option<u64>,
    lost_last: u64,
    dropped: u64,
}

impl Screen {
    /// What is shown of a partition from a tick on, which a system has reached. An error if memory ran out. No other
    /// call takes memory.
    pub(crate) fn new(
        alloc: Global,
        system: &System<'_>,
        p: PartId,
        part: &PartState,
        at: u64,
    ) -> Result<Screen, AllocError>
        requires { p < length system.now.config.sections }
    {
        let threads = part.threads();
        let mut rows = Vec::new(alloc);
        for place in 0..threads.len().min(THREAD_LIMIT as usize) {
            let state = &threads[place];
            let start = if at == 0 {
                system.pc(p, ThreadNo::new(place as u8 + 1))
            } else {
                None
            };
            add_row(&mut rows, state, start, at)?;
        }
        Ok(Screen {
            part: p,
            written: Outline::of(part),
            rows,
            at,
            now: Outline::of(part),
            step: None,
            lost: None,
            lost_last: 0,
            dropped: 0,
        })
    }

    /// The partition.
    pub(crate) fn part(&self) -> PartId {
        self.part
    }

    /// Goes on to the first tick that is written, from which on all is shown that was before it.
    pub(crate) fn begin<W: Write>(
        &mut self,
        sheet: &mut Sheet<'_, '_>,
        out: &mut W,
    ) -> Result<(), PutFault> {
        let from = sheet.from;
        self.reach(from, sheet, out)?;
        for row in self.rows.iter_mut() {
            row.kept.since = from;
            if from > 0 {
                row.start = None;
            }
        }
        if from < self.lost_last {
            self.lost = Some(self.lost_last);
        }
        Ok(())
    }

    /// Writes all that was shown before the first tick, at which the partition had a window or not.
    pub(crate) fn put_all<W: Write>(
        &self,
        has_window: bool,
        sheet: &mut Sheet<'_, '_>,
        out: &mut W,
    ) -> Result<(), PutFault> {
        let tick = sheet.from;
        if has_window {
            sheet.put(self.part, tick, &Change::WindowBegins, out)?;
        } else {
            sheet.put(self.part, tick, &Change::WindowEnds { since: tick }, out)?;
        }
        sheet.put(self.part, tick, &Change::Status(self.written.status), out)?;
        sheet.put(self.part, tick, &Change::Runner(self.written.runner), out)?;
        for place in 0..self.rows.len().min(THREAD_LIMIT as usize) {
            let first = Change::First {
                thread: ThreadNo::new(place as u8 + 1),
                shown: &self.rows[place].kept.shown,
                start: self.rows[place].start,
            };
            sheet.put(self.part, tick, &first, out)?;
        }
        Ok(())
    }

    /// Writes what is shown up to the last tick.
    pub(crate) fn put_rest<W: Write>(
        &self,
        sheet: &mut Sheet<'_, '_>,
        out: &mut W,
    ) -> Result<(), PutFault> {
        let to = sheet.to;
        for place in 0..self.rows.len().min(THREAD_LIMIT as usize) {
            let before = &self.rows[place].kept;
            let last = Change::Next {
                thread: ThreadNo::new(place as u8 + 1),
                before,
                now: &before.shown,
            };
            sheet.put(self.part, to, &last, out)?;
        }
        Ok(())
    }

    /// An event of the partition comes.
    pub(crate) fn see<W: Write>(
        &mut self,
        event: &Event,
        sheet: &mut Sheet<'_, '_>,
        out: &mut W,
    ) -> Result<(), PutFault> {
        match event {
            Event::Steps(steps) => {
                self.reach(steps.from, sheet, out)?;
                self.step(steps.thread, steps.until.min(sheet.to));
            }
            Event::Call(call) => {
                self.reach(call.from, sheet, out)?;
                self.step(call.thread, call.until.min(sheet.to));
            }
            Event::Change(change) => {
                self.reach(change.tick, sheet, out)?;
                self.change(change);
            }
            Event::Status { status, tick } => {
                self.reach(*tick, sheet, out)?;
                self.now.status = *status;
            }
            Event::Lost { from, until } => {
                self.reach(*from, sheet, out)?;
                self.lost = Some(*until);
                self.lost_last = *until;
            }
            Event::Dropped { bytes, tick } => {
                self.reach(*tick, sheet, out)?;
                self.dropped = *bytes;
            }
            Event::WindowBegins { .. }
            | Event::WindowEnds { .. }
            | Event::Reply(_)
            | Event::Owner { .. } => {}
        }
        Ok(())
    }

    /// A step of a thread takes up the ticks before this one.
    fn step(&mut self, thread: ThreadNo, until: u64) {
        self.step = Some(Step { thread, until });
        self.touch(thread);
    }

    /// A thread does something else.
    fn change(&mut self, change: &Told) {
        let thread = change.thread;
        let Some(row) = self.rows.get_mut(thread.place()) else {
            return;
        };
        row.state = change.now;
        row.is_touched = true;
        if change.start.is_some() {
            row.start = change.start;
        }
        if let Some(by) = change.waker() {
            row.waker = Some(by);
        }
        if matches!(Shown::of(&change.now, false).doing, Doing::Suspended) {
            self.now.runner = Some(thread);
        } else if self.now.runner == Some(thread) {
            self.now.runner = None;
        }
    }

    /// A thread may be shown otherwise.
    fn touch(&mut self, thread: ThreadNo) {
        if let Some(row) = self.rows.get_mut(thread.place()) {
            row.is_touched = true;
        }
    }

    /// What comes next is of a tick: writes what came at the ticks before.
    pub(crate) fn reach<W: Write>(
        &mut self,
        tick: u64,
        sheet: &mut Sheet<'_, '_>,
        out: &mut W,
    ) -> Result<(), PutFault> {
        let tick = tick.min(sheet.to);
        if tick <= self.at {
            return Ok(());
        }
        self.put_new(sheet, out)?;
        if let Some(step) = self.step {
            if step.until <= tick {
                self.end_step(step, tick, sheet, out)?;
            }
        }
        self.at = tick;
        Ok(())
    }

    /// A step ends by a tick: if it ends before, what is shown after it is written.
    fn end_step<W: Write>(
        &mut self,
        step: Step,
        tick: u64,
        sheet: &mut Sheet<'_, '_>,
        out: &mut W,
    ) -> Result<(), PutFault> {
        self.step = None;
        self.touch(step.thread);
        self.at = step.until;
        if step.until < tick {
            self.put_new(sheet, out)?;
        }
        Ok(())
    }

    /// Writes what came at the ticks before this one, and at it.
    pub(crate) fn settle<W: Write>(
        &mut self,
        tick: u64,
        sheet: &mut Sheet<'_, '_>,
        out: &mut W,
    ) -> Result<(), PutFault> {
        self.reach(tick, sheet, out)?;
        self.put_new(sheet, out)
    }

    /// Writes what came at the tick at hand.
    fn put_new<W: Write>(
        &mut self,
        sheet: &mut Sheet<'_, '_>,
        out: &mut W,
    ) -> Result<(), PutFault> {
        let tick = self.at;
        if self.written.status != self.now.status {
            self.written.status = self.now.status;
            sheet.put(self.part, tick, &Change::Status(self.now.status), out)?;
        }
        if self.written.runner != self.now.runner {
            self.written.runner = self.now.runner;
            sheet.put(self.part, tick, &Change::Runner(self.now.runner), out)?;
        }
        self.put_new_rows(sheet, out)?;
        if let Some(until) = self.lost {
            let ticks = until.saturating_sub(tick);
            sheet.put(self.part, tick, &Change::Lost { ticks }, out)?;
            self.lost = None;
        }
        if 0 < self.dropped {
            let bytes = self.dropped;
            sheet.put(self.part, tick, &Change::Dropped { bytes }, out)?;
            self.dropped = 0;
        }
        Ok(())
    }

    /// Writes which threads are shown otherwise.
    fn put_new_rows<W: Write>(
        &mut self,
        sheet: &mut Sheet<'_, '_>,
        out: &mut W,
    ) -> Result<(), PutFault> {
        for place in 0..self.rows.len().min(THREAD_LIMIT as usize) {
            self.put_row(ThreadNo::new(place as u8 + 1), sheet, out)?;
        }
        Ok(())
    }

    /// Writes what is shown of a thread, if it may be another than before.
    fn put_row<W: Write>(
        &mut self,
        thread: ThreadNo,
        sheet: &mut Sheet<'_, '_>,
        out: &mut W,
    ) -> Result<(), PutFault> {
        let (part, at, is_step) = (self.part, self.at, self.is_step_of(thread));
        match self.rows.get_mut(thread.place()) {
            Some(row) if row.is_touched => row.put(part, thread, is_step, at, sheet, out),
            _ => Ok(()),
        }
    }

    /// Whether a step of a thread takes up the tick at hand.
    fn is_step_of(&self, thread: ThreadNo) -> bool {
        match self.step {
            Some(step) => step.thread == thread,
            None => false,
        }
    }
}
