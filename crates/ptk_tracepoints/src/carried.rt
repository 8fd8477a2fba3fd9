//! What goes on at the first tick of a tracer.

use crate::event::{Change, Event, Steps};
use crate::tracer::Probe;
use ptk_system::PartStatus;
use ptk_words::PartId;
use std::alloc::AllocError;

/// What has begun before a tick and goes on there: the step and the lost ticks of the partition whose window holds the
/// tick, and what comes after the step.
#[derive(Clone, Copy)]
pub(crate) struct Carried {
    pub(crate) at: u64,
    pub(crate) step: Option<Steps>,
    pub(crate) lost: Option<u64>,
    pub(crate) change: Option<Change>,
    pub(crate) status: Option<(PartStatus, u64)>,
}

impl Carried {
    /// Nothing, at a tick.
    pub(crate) fn none(at: u64) -> Carried {
        Carried {
            at,
            step: None,
            lost: None,
            change: None,
            status: None,
        }
    }

    /// Keeps steps that go on at the tick.
    fn keep_steps(&mut self, steps: Steps) {
        if self.at < steps.until {
            self.step = Some(steps);
        }
    }
}

/// What is told of the ticks before. No step passes the end of its window, so what goes on at the tick is of one
/// partition.
impl Probe for Carried {
    type Fault = AllocError;

    const CALLS: bool = true;

    const WINDOWS: bool = false;

    fn see(&mut self, _p: PartId, event: &Event) -> Result<(), AllocError> {
        match event {
            Event::Steps(steps) => self.keep_steps(*steps),
            Event::Call(call) => {
                let steps = Steps {
                    thread: call.thread,
                    from: call.from,
                    until: call.until,
                    count: 1,
                    stack: call.stack,
                };
                self.keep_steps(steps);
            }
            Event::Lost { until, .. } if self.at < *until => self.lost = Some(*until),
            Event::Change(change) if self.at < change.tick => self.change = Some(*change),
            Event::Status { status, tick } if self.at < *tick => {
                self.status = Some((*status, *tick));
            }
            _ => {}
        }
        Ok(())
    }
}
