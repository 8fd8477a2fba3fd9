//! How many ticks between two are a partition's own.

ghost use Rattle.std.specs.Prelude.{◌-◌, ◌<◌, ◌≤◌};
ghost use Rattle.ptk_words.specs.declared.TheConstants.{LAST_TICK};

use ptk_window::{Near, WindowPlan};
use ptk_words::{PartId, Tick};

/// The windows of a partition, each looked up from near the one that was looked up last.
#[derive(Clone, Copy)]
pub(crate) struct OwnWindows {
    partition: PartId,
    near: Near,
    // own ticks, all of one window: from `start` on and before `end`
    start: u64,
    end: u64,
}

/// Ticks in a row that end before `end`, of which this many are own.
#[derive(Clone, Copy)]
struct Stretch {
    own: u64,
    end: u64,
}

impl OwnWindows {
    /// Those of a partition in a plan.
    pub(crate) fn new(plan: &WindowPlan, partition: PartId) -> OwnWindows {
        OwnWindows {
            partition,
            near: plan.first_near(),
            start: 0,
            end: 0,
        }
    }

    /// How many ticks from one on and before another are own. If all lie in the window that was looked up last, nothing
    /// is looked up.
    #[inline(always)]
    pub(crate) fn between(&mut self, plan: &WindowPlan, from: u64, to: u64) -> u64
        requires order { from ≤ to }
        requires time { to ≤ LAST_TICK }
        ensures { result ≤ to - from }
    {
        if self.start <= from && to <= self.end {
            return to - from;
        }
        self.look_up(plan, from, to)
    }

    /// As `between`: window by window within a frame, and otherwise stage by stage.
    #[cold]
    #[inline(never)]
    fn look_up(&mut self, plan: &WindowPlan, from: u64, to: u64) -> u64
        requires order { from ≤ to }
        requires time { to ≤ LAST_TICK }
        ensures { result ≤ to - from }
    {
        if to - from < u64::from(plan.frame()) {
            return self.by_windows(plan, from, to);
        }
        let mut own = 0;
        let mut tick = from;
        for stage in 0..plan.stages() {
            let begin = plan.begin_of(stage).ticks().min(to).max(tick);
            own += self.in_stage(plan, tick, begin);
            tick = begin;
        }
        own + self.in_stage(plan, tick, to)
    }

    /// As `between`, if no stage begins between the two ticks: all whole frames between them have the same windows.
    fn in_stage(&mut self, plan: &WindowPlan, from: u64, to: u64) -> u64
        requires order { from ≤ to }
        requires time { to ≤ LAST_TICK }
        ensures { result ≤ to - from }
    {
        plan.is_plan();
        let frame = u64::from(plan.frame());
        let frames = (to - from) / frame;
        if frames == 0 {
            return self.by_windows(plan, from, to);
        }
        let own = self.by_windows(plan, from, from + frame);
        let rest = self.by_windows(plan, from + frames * frame, to);
        frames * own + rest
    }

    /// As `between`, from window to window.
    fn by_windows(&mut self, plan: &WindowPlan, from: u64, to: u64) -> u64
        requires order { from ≤ to }
        requires time { to ≤ LAST_TICK }
        ensures { result ≤ to - from }
    {
        let mut own = 0;
        let mut tick = from;
        while tick < to {
            let stretch = self.next_stretch(plan, tick, to);
            own += stretch.own;
            tick = stretch.end;
        }
        own
    }

    /// The ticks from one on up to the end of the partition's next window, at most before another.
    fn next_stretch(&mut self, plan: &WindowPlan, from: u64, to: u64) -> Stretch
        requires order { from < to }
        requires time { to ≤ LAST_TICK }
        ensures on { from < result.end }
        ensures within { result.end ≤ to }
        ensures own { result.own ≤ result.end - from }
    {
        let none = Stretch { own: 0, end: to };
        let Some(turn) = plan.turn_from(self.partition, Tick::new(from), &mut self.near) else {
            return none;
        };
        self.start = turn.start.ticks();
        self.end = turn.end.ticks();
        if to <= self.start {
            return none;
        }
        let end = self.end.min(to);
        Stretch {
            own: end - self.start,
            end,
        }
    }
}
