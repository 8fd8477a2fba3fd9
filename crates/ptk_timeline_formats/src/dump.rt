//! What is shown of all partitions.

use crate::change::Change;
use crate::fault::PutFault;
use crate::screen::Screen;
use crate::sheet::{Form, Sheet};
use ptk_tracepoints::{Event, Probe, System, Tracer};
use ptk_words::PartId;
use std::alloc::{AllocError, Global};
use std::io::Write;

/// What is written of a run, and what is shown of each partition. What comes before the sheet's first tick is not
/// written, and says what is shown there.
#[derive(Drop)]
pub(crate) struct Dump<'a, 's, 'o, W> {
    sheet: Sheet<'a, 's>,
    screens: Vec<Screen>,
    // the partition whose window holds the tick, and the first tick that is shown of the window
    holder: Option<PartId>,
    since: u64,
    out: &'o mut W,
}

impl<'a, 's, 'o, W: Write> Dump<'a, 's, 'o, W> {
    /// Nothing is written yet of a system at the tracer's first tick. An error if memory ran out.
    pub(crate) fn new(
        alloc: Global,
        system: &System<'_>,
        tracer: &Tracer,
        sheet: Sheet<'a, 's>,
        out: &'o mut W,
    ) -> Result<Dump<'a, 's, 'o, W>, AllocError> {
        let at = tracer.from().ticks();
        let mut screens = Vec::new(alloc);
        for i in 0..system.parts() {
            if let Some(part) = tracer.parts().get(i) {
                let p = PartId::new(i as u8);
                screens.push(Screen::new(alloc, system, p, part, at)?)?;
            }
        }
        Ok(Dump {
            sheet,
            screens,
            holder: None,
            since: at,
            out,
        })
    }

    /// What comes next is of a tick: if that is the first that is written or a later one, and nothing is written yet,
    /// writes what is before the first values, and these, which are those before it.
    fn reach(&mut self, tick: u64) -> Result<(), PutFault> {
        if self.sheet.is_begun || tick < self.sheet.from {
            return Ok(());
        }
        let from = self.sheet.from;
        for screen in self.screens.iter_mut() {
            screen.begin(&mut self.sheet, self.out)?;
        }
        self.since = from;
        self.sheet.is_begun = true;
        self.sheet.put_head(self.out)?;
        for screen in self.screens.iter() {
            let has_window = self.holder == Some(screen.part());
            screen.put_all(has_window, &mut self.sheet, self.out)?;
        }
        self.sheet.put_first_end(self.out)
    }

    /// Writes what is after all that changes: the last tick, or the last events and the end of their list.
    pub(crate) fn put_end(&mut self) -> Result<(), PutFault> {
        let to = self.sheet.to;
        self.reach(to)?;
        if let Some(p) = self.holder {
            self.settle(p, to)?;
        }
        match self.sheet.form {
            Form::Vcd => self.sheet.reach(to, self.out),
            Form::Events => self.put_rest(to),
        }
    }

    /// Writes the events that last up to the last tick, and the end of their list.
    fn put_rest(&mut self, to: u64) -> Result<(), PutFault> {
        if let Some(p) = self.holder {
            let change = Change::WindowEnds { since: self.since };
            self.sheet.put(p, to, &change, self.out)?;
        }
        for screen in self.screens.iter() {
            screen.put_rest(&mut self.sheet, self.out)?;
        }
        Ok(self.out.write_all(b"\n]}\n")?)
    }

    /// Writes what came of a partition at the ticks before this one, and at it.
    fn settle(&mut self, p: PartId, tick: u64) -> Result<(), PutFault> {
        match self.screens.get_mut(p.index()) {
            Some(screen) => screen.settle(tick, &mut self.sheet, self.out),
            None => Ok(()),
        }
    }

    /// The window of a partition begins at a tick.
    fn begin_window(&mut self, p: PartId, tick: u64) -> Result<(), PutFault> {
        self.holder = Some(p);
        self.since = tick;
        if let Some(screen) = self.screens.get_mut(p.index()) {
            screen.reach(tick, &mut self.sheet, self.out)?;
        }
        self.sheet.put(p, tick, &Change::WindowBegins, self.out)
    }

    /// The window of a partition ends before a tick.
    fn end_window(&mut self, p: PartId, tick: u64) -> Result<(), PutFault> {
        self.holder = None;
        self.settle(p, tick)?;
        let change = Change::WindowEnds { since: self.since };
        self.sheet.put(p, tick, &change, self.out)
    }
}

impl<'a, 's, 'o, W: Write> Probe for Dump<'a, 's, 'o, W> {
    type Fault = PutFault;

    const CALLS: bool = false;

    const WINDOWS: bool = true;

    fn see(&mut self, p: PartId, event: &Event) -> Result<(), PutFault> {
        if let Some(tick) = tick_of(event) {
            self.reach(tick)?;
        }
        match event {
            Event::WindowBegins { tick } => self.begin_window(p, *tick),
            Event::WindowEnds { tick } => self.end_window(p, *tick),
            _ => match self.screens.get_mut(p.index()) {
                Some(screen) => screen.see(event, &mut self.sheet, self.out),
                None => Ok(()),
            },
        }
    }
}

/// The first tick of which an event is, None of one that has none.
fn tick_of(event: &Event) -> Option<u64> {
    match event {
        Event::Steps(steps) => Some(steps.from),
        Event::Call(call) => Some(call.from),
        Event::Change(change) => Some(change.tick),
        Event::Lost { from, .. } => Some(*from),
        Event::WindowBegins { tick }
        | Event::WindowEnds { tick }
        | Event::Owner { tick, .. }
        | Event::Dropped { tick, .. }
        | Event::Status { tick, .. } => Some(*tick),
        Event::Reply(_) => None,
    }
}
