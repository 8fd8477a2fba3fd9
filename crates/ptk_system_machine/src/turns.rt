//! How all partitions go on: one after the other, each from turn to turn, by rows of plain steps and quiet calls and by
//! the turns of single threads.

ghost use Rattle.std.specs.Prelude.{◌≡◌, ◌<◌, ◌≤◌, ◌^◌, ◌+◌, ◌-◌, ℕ, true, None, Some, IfSome, IsSome, MatchOption, length, min};
ghost use Rattle.ptk_words.specs.declared.TheConstants.{LAST_TICK};
ghost use Rattle.ptk_words_model.specs.Windows.{own_ticks};
ghost use Rattle.ptk_words_model.specs.Decision.{ready_at};
ghost use Rattle.ptk_words_model.specs.Run.{next_from};
ghost use Rattle.ptk_words_model.specs.State.{State};
ghost use Rattle.ptk_words_laws.specs.Quiet.{after_ticks};
ghost use Rattle.ptk_words_laws.specs.Prepared.{prepared};
ghost use Rattle.ptk_words_laws.specs.Idle.{IsIdle};
ghost use Rattle.ptk_kernel.specs.Kept.{limits_at, part_at, put_part};
ghost use Rattle.ptk_kernel.specs.Rows.{IsCallNext, IsChosen, IsStill, IsStillTo};
ghost use Rattle.ptk_kernel.specs.Decisions.{longest_step};
ghost use Rattle.ptk_kernel.specs.Spending.{cost_in};
ghost use Rattle.ptk_system_machine.specs.Accounts.{IsBehind};
ghost use Rattle.ptk_system_machine.specs.Steady.{AreSteady, IsStillBehindCall, states_from};
ghost use Rattle.ptk_system_machine.specs.Turns.{ComesFirst, HasDecided, IsAt, IsComing, IsFreeFrom, IsInWindow, IsPlainAt, IsStillUntil, IsUpTo};
ghost use Rattle.ptk_system_machine.specs.Whole.{AreWindowsOf, account_at, gone_on, put_state, state_at};

mod calls;

use crate::account::duration;
use crate::machine::Machine;
use ptk_kernel::{
    Quiet, Tables, prepare, prepared_until, quiet_until, run_quiet, stays_idle_until, take_call,
    take_turn,
};
use ptk_window::{Near, Turn, Walk, WindowPlan};
use ptk_words::{PartId, Status, ThreadNo, Tick};
use ptk_words_model::Spent;

/// Where a row of a partition ends.
#[derive(Clone, Copy)]
struct RowEnd {
    /// The partition's next turn.
    turn: Turn,
    /// Whether the running thread's next step is known to be a call.
    is_call: bool,
}

/// The partition that decides first.
#[derive(Clone, Copy)]
struct First {
    /// The partition.
    p: PartId,
    /// Its turn.
    turn: Turn,
    /// Before which tick no other partition decides.
    stop: Tick,
}

impl Machine {
    /// Goes on from a tick to `to`: with one partition after the other, in the order of sections, since none sees how
    /// far another has come. To each partition it does what this many ticks would do to that partition alone.
    pub fn run(&mut self, plan: &WindowPlan, tick: Tick, to: Tick)
        requires windows { AreWindowsOf (length self.old.accounts) plan.now }
        requires order { tick ≤ to }
        requires time { to ≤ LAST_TICK }
        requires behind { (p : ℕ) → p < length self.old.accounts → IsBehind tick (state_at p self.old) }
        ensures parts { length self.new.accounts ≡ length self.old.accounts }
        ensures limits { self.new.kept.limits ≡ self.old.kept.limits }
        ensures each { (q : ℕ) → q < length self.old.accounts →
            state_at q self.new ≡ after_ticks (own_ticks plan.now q) (limits_at q self.old.kept) tick (to - tick) (state_at q self.old) }
    {
        let count = self.parts();
        for i in 0..count {
            let _parts = self.parts();
            self.run_partition(plan, PartId::new(i as u8), tick, to);
        }
    }

    /// Goes on with one partition from a tick to `to`, turn after turn, by one walk through its windows.
    fn run_partition(&mut self, plan: &WindowPlan, p: PartId, tick: Tick, to: Tick)
        requires partition { p < length self.old.accounts }
        requires windows { AreWindowsOf (length self.old.accounts) plan.now }
        requires order { tick ≤ to }
        requires time { to ≤ LAST_TICK }
        requires behind { IsBehind tick (state_at p self.old) }
        ensures { self.new ≡ gone_on (own_ticks plan.now p) p tick (to - tick) self.old }
    {
        let _parts = self.parts();
        plan.is_plan();
        let mut now = self.first_turn(plan, p, tick, to);
        let mut walk = plan.walk(p, self.accounts[p.index()].near);
        while now.start.ticks() < to.ticks() {
            now = self.go_on(plan, p, now, to, &mut walk);
        }
        self.keep_near(p, walk.near());
    }

    /// Goes on from a tick by plain steps and quiet calls of the partition that decides next, up to `to` at most,
    /// and before any other decision. Returns the tick that it reached, which is the first one only where that is `to`,
    /// or a decision at that tick is no plain step of a quiet partition. To each partition it does what this many ticks
    /// would do to that partition alone. At each tick on the way each thread does, and waits for, what it did at the
    /// first one.
    pub fn run_row(&mut self, plan: &WindowPlan, tick: Tick, to: Tick) -> Tick
        requires windows { AreWindowsOf (length self.old.accounts) plan.now }
        requires order { tick ≤ to }
        requires time { to ≤ LAST_TICK }
        requires behind { (p : ℕ) → p < length self.old.accounts → IsBehind tick (state_at p self.old) }
        ensures from { tick ≤ result }
        ensures within { result ≤ to }
        ensures on { tick < to → ((q : ℕ) → q < length self.old.accounts → (account_at q self.old).account.next ≡ Some tick →
            IsPlainAt (limits_at q self.old.kept) tick (part_at q self.old.kept)) → tick < result }
        ensures parts { length self.new.accounts ≡ length self.old.accounts }
        ensures limits { self.new.kept.limits ≡ self.old.kept.limits }
        ensures each { (q : ℕ) → q < length self.old.accounts →
            state_at q self.new ≡ after_ticks (own_ticks plan.now q) (limits_at q self.old.kept) tick (result - tick) (state_at q self.old) }
        ensures steady { (q : ℕ) → q < length self.old.accounts →
            AreSteady (part_at q self.old.kept) (states_from (own_ticks plan.now q) (limits_at q self.old.kept) tick (state_at q self.old)) tick result }
    {
        let _parts = self.parts();
        let Some(first) = self.first_due(plan, tick, to) else {
            return to;
        };
        self.rows(plan, first.p, first.turn, first.stop).start
    }

    /// The partition that decides first in a run, which goes on from a tick to `to`, and up to which tick it does so
    /// alone and in one window. None where no partition decides.
    #[inline(always)]
    fn first_due(&mut self, plan: &WindowPlan, tick: Tick, to: Tick) -> Option<First>
        requires time { to ≤ LAST_TICK }
        requires windows { AreWindowsOf (length self.old.accounts) plan.now }
        ensures same { self.new ≡ self.old }
        ensures first { MatchOption result
            ((q : ℕ) → q < length self.old.accounts → IsStillUntil (own_ticks plan.now q) (limits_at q self.old.kept) tick to (state_at q self.old))
            (λ first. (first.turn.start < to) × ComesFirst plan.now tick to (length self.old.accounts) self.old first) }
    {
        plan.is_plan();
        let parts = self.parts();
        let mut first = none_yet(to);
        for i in 0..parts {
            let p = PartId::new(i as u8);
            let due = self.due_turn(plan, p, tick, to);
            first = first_of(first, p, due);
        }
        let First { p, turn, stop } = first;
        if to.ticks() <= turn.start.ticks() {
            return None;
        }
        let stop = Tick::new(stop.ticks().min(turn.end.ticks()));
        Some(First { p, turn, stop })
    }

    /// The partition's first turn in a run, which goes on from a tick to `to`.
    #[inline(never)]
    fn first_turn(&mut self, plan: &WindowPlan, p: PartId, tick: Tick, to: Tick) -> Turn
        requires partition { p < length self.old.accounts }
        requires order { tick ≤ to }
        requires time { to ≤ LAST_TICK }
        requires windows { AreWindowsOf (length self.old.accounts) plan.now }
        ensures same { self.new ≡ self.old }
        ensures first { IsUpTo (own_ticks plan.now p) (limits_at p self.old.kept) tick to result (state_at p self.old) (state_at p self.old) }
        ensures still { IsStillUntil (own_ticks plan.now p) (limits_at p self.old.kept) tick result.start (state_at p self.old) }
    {
        match self.due_turn(plan, p, tick, to) {
            Some(turn) => turn,
            None => Turn { start: to, end: to },
        }
    }

    /// The turn that begins with the partition's next decision, where that is from the tick on and before `to`. None
    /// where it is not, or is at a tick that is not the partition's own, at which it never takes place.
    #[inline(always)]
    fn due_turn(&mut self, plan: &WindowPlan, p: PartId, tick: Tick, to: Tick) -> Option<Turn>
        requires partition { p < length self.old.accounts }
        requires time { to ≤ LAST_TICK }
        requires frame { plan.now.frame ≤ 1000000 }
        ensures same { self.new ≡ self.old }
        ensures turn { MatchOption result
            ((k : ℕ) → tick ≤ k → k < to → (account_at p self.old).account.next ≡ Some k → (own_ticks plan.now p).end_at k ≡ None)
            (λ turn. (tick ≤ turn.start) × (turn.start < to)
            × ((account_at p self.old).account.next ≡ Some turn.start)
            × IsInWindow (own_ticks plan.now p) turn.start turn.end) }
    {
        plan.is_plan();
        let Some(next) = self.account(p).next() else {
            return None;
        };
        if next.ticks() < tick.ticks() || to.ticks() <= next.ticks() {
            return None;
        }
        let near = &mut self.accounts[p.index()].near;
        let Some(turn) = plan.turn_from(p, next, near) else {
            return None;
        };
        if turn.start.ticks() != next.ticks() {
            return None;
        }
        Some(turn)
    }

    /// Goes on from the partition's next decision, with which the turn begins: what comes at its tick arrives and
    /// expires, a thread is chosen, and then, from that very tick on, come plain steps in a row and quiet calls while
    /// the partition is quiet, or else the turn of that thread. Returns the partition's next turn, at whose window the
    /// walk then is.
    #[inline(always)]
    fn go_on(
        &mut self,
        plan: &WindowPlan,
        p: PartId,
        turn: Turn,
        to: Tick,
        walk: &mut Walk<'_>,
    ) -> Turn
        requires partition { p < length self.old.accounts }
        requires windows { AreWindowsOf (length self.old.accounts) plan.now }
        requires time { to ≤ LAST_TICK }
        requires due { turn.start < to }
        requires coming { IsComing (own_ticks plan.now p) to (account_at p self.old).account.next turn }
        requires behind { IsBehind turn.start (state_at p self.old) }
        requires walk { IsAt plan.now p turn.end walk.old }
        ensures on { turn.start < result.start }
        ensures coming { IsComing (own_ticks plan.now p) to (account_at p self.new).account.next result }
        ensures gone { self.new ≡ gone_on (own_ticks plan.now p) p turn.start (result.start - turn.start) self.old }
        ensures walk { result.start < to → IsAt plan.now p result.end walk.new }
    {
        let _parts = self.parts();
        plan.is_plan();
        self.prepare(p, turn.start);
        match self.prepared_until(p, turn.start, to) {
            Some(quiet) => self.go_quiet(plan, p, turn, quiet, to, walk),
            None => self.take_turn(plan, p, turn, to, walk),
        }
    }

    /// The first half of the partition's next decision, which is at the tick: arrivals, expiries and the choice of the
    /// running thread. Its account stays, and so does every other partition.
    fn prepare(&mut self, p: PartId, tick: Tick)
        requires partition { p < length self.old.accounts }
        requires due { (account_at p self.old).account.next ≡ Some tick }
        requires behind { IsBehind tick (state_at p self.old) }
        ensures tables { self.new.kept ≡ put_part p (ready_at (limits_at p self.old.kept) tick (part_at p self.old.kept)) self.old.kept }
        ensures accounts { self.new.accounts ≡ self.old.accounts }
        ensures behind { IsBehind tick (state_at p self.new) }
        ensures chosen { IsChosen (part_at p self.new.kept) }
    {
        prepare(&mut self.tables, p, tick);
    }

    /// `quiet_until` of a partition that is prepared for its next decision, so that its running thread is chosen.
    fn prepared_until(&self, p: PartId, tick: Tick, to: Tick) -> Option<Quiet>
        requires partition { p < length self.now.accounts }
        requires order { tick < to }
        requires time { to ≤ LAST_TICK }
        requires due { (account_at p self.now).account.next ≡ Some tick }
        requires behind { IsBehind tick (state_at p self.now) }
        requires chosen { IsChosen (part_at p self.now.kept) }
        ensures { IfSome result (λ q. (tick < q.stop) × (q.stop ≤ to) × IsStill p tick q self.now.kept) }
    {
        let _parts = self.parts();
        prepared_until(&self.tables, p, tick, to)
    }

    /// Whether the partition is quiet from its next decision on, which is at the tick, and up to which tick, at most
    /// `to`. It is where its running thread's next step is a plain one, and none other comes before it.
    fn quiet_until(&self, p: PartId, tick: Tick, to: Tick) -> Option<Quiet>
        requires partition { p < length self.now.accounts }
        requires order { tick < to }
        requires time { to ≤ LAST_TICK }
        requires due { (account_at p self.now).account.next ≡ Some tick }
        requires behind { IsBehind tick (state_at p self.now) }
        ensures quiet { IfSome result (λ q. (tick < q.stop) × (q.stop ≤ to) × IsStill p tick q self.now.kept) }
        ensures full { IsPlainAt (limits_at p self.now.kept) tick (part_at p self.now.kept) → IsSome result }
    {
        let _parts = self.parts();
        quiet_until(&self.tables, p, tick, to)
    }

    /// Goes on with a quiet partition, whose next decision begins the turn and needs no preparation: by plain steps in
    /// a row and quiet calls, and by the turn of its thread where another step of it comes before the partition's stop;
    /// where that is known to be a call, the call is made at once. Returns the next turn.
    #[inline(always)]
    fn go_quiet(
        &mut self,
        plan: &WindowPlan,
        p: PartId,
        turn: Turn,
        quiet: Quiet,
        to: Tick,
        walk: &mut Walk<'_>,
    ) -> Turn
        requires partition { p < length self.old.accounts }
        requires windows { AreWindowsOf (length self.old.accounts) plan.now }
        requires time { to ≤ LAST_TICK }
        requires order { turn.start < quiet.stop }
        requires within { quiet.stop ≤ to }
        requires quiet { IsStill p turn.start quiet self.old.kept }
        requires coming { IsComing (own_ticks plan.now p) to (account_at p self.old).account.next turn }
        requires behind { IsBehind turn.start (state_at p self.old) }
        requires walk { IsAt plan.now p turn.end walk.old }
        ensures on { turn.start < result.start }
        ensures coming { IsComing (own_ticks plan.now p) to (account_at p self.new).account.next result }
        ensures gone { self.new ≡ gone_on (own_ticks plan.now p) p turn.start (result.start - turn.start) self.old }
        ensures walk { result.start < to → IsAt plan.now p result.end walk.new }
    {
        let _parts = self.parts();
        plan.is_plan();
        let (stop, thread) = (quiet.stop.ticks(), quiet.thread);
        let RowEnd {
            turn: next,
            is_call,
        } = self.rows_before(plan, p, turn, quiet, to, quiet.stop, walk);
        if stop <= next.start.ticks() {
            return next;
        }
        if is_call {
            self.take_call(plan, p, next, thread, to, walk)
        } else {
            self.take_turn(plan, p, next, to, walk)
        }
    }

    /// The second half of the partition's next decision, with which its turn begins: the turn of the thread that was
    /// chosen. Returns its next turn. From every state that the first half leads to where the partition is, it leads to
    /// where the ticks up to that turn lead.
    fn take_turn(
        &mut self,
        plan: &WindowPlan,
        p: PartId,
        turn: Turn,
        to: Tick,
        walk: &mut Walk<'_>,
    ) -> Turn
        requires partition { p < length self.old.accounts }
        requires frame { plan.now.frame ≤ 1000000 }
        requires time { to ≤ LAST_TICK }
        requires due { turn.start < to }
        requires coming { IsComing (own_ticks plan.now p) to (account_at p self.old).account.next turn }
        requires behind { IsBehind turn.start (state_at p self.old) }
        requires walk { IsAt plan.now p turn.end walk.old }
        ensures on { turn.start < result.start }
        ensures coming { IsComing (own_ticks plan.now p) to (account_at p self.new).account.next result }
        ensures gone { (s : State) → state_at p self.old ≡ prepared (limits_at p self.old.kept) turn.start s →
            self.new ≡ put_state p (after_ticks (own_ticks plan.now p) (limits_at p self.old.kept) turn.start (result.start - turn.start) s) self.old }
        ensures walk { result.start < to → IsAt plan.now p result.end walk.new }
    {
        let Turn { start, end } = turn;
        let room = (end.ticks() - start.ticks()) as u32;
        let spent = take_turn(&mut self.tables, p, start, room);
        let from = free_from(&self.tables, p, start, room, spent, to);
        self.end_turn(plan, p, turn, spent, from, to, walk)
    }

    /// As `take_turn`, where the step of the thread that was chosen is known to be a call. Since a thread runs, no idle
    /// ticks follow, and the next decision is looked for behind the ticks that the call takes up.
    #[inline(always)]
    fn take_call(
        &mut self,
        plan: &WindowPlan,
        p: PartId,
        turn: Turn,
        thread: ThreadNo,
        to: Tick,
        walk: &mut Walk<'_>,
    ) -> Turn
        requires partition { p < length self.old.accounts }
        requires frame { plan.now.frame ≤ 1000000 }
        requires time { to ≤ LAST_TICK }
        requires due { turn.start < to }
        requires call { IsCallNext thread (part_at p self.old.kept) }
        requires coming { IsComing (own_ticks plan.now p) to (account_at p self.old).account.next turn }
        requires behind { IsBehind turn.start (state_at p self.old) }
        requires walk { IsAt plan.now p turn.end walk.old }
        ensures on { turn.start < result.start }
        ensures coming { IsComing (own_ticks plan.now p) to (account_at p self.new).account.next result }
        ensures gone { (s : State) → state_at p self.old ≡ prepared (limits_at p self.old.kept) turn.start s →
            self.new ≡ put_state p (after_ticks (own_ticks plan.now p) (limits_at p self.old.kept) turn.start (result.start - turn.start) s) self.old }
        ensures walk { result.start < to → IsAt plan.now p result.end walk.new }
    {
        let Turn { start, end } = turn;
        let room = (end.ticks() - start.ticks()) as u32;
        let spent = take_call(&mut self.tables, p, thread, start, room);
        let from = Tick::new(start.ticks() + u64::from(duration(room, spent)));
        self.end_turn(plan, p, turn, spent, from, to, walk)
    }

    /// Counts the decision with which the partition's turn begins, which spent this and led to where the partition is,
    /// and looks for the next one from a tick on. Returns the next turn, at whose window the walk then is. From every
    /// state from which that decision was made, all is then as the ticks up to that turn leave it, if the partition has
    /// nothing to do before the tick.
    #[inline(always)]
    #[tactic(auto, using(crate::proofs::States::states))]
    fn end_turn(
        &mut self,
        plan: &WindowPlan,
        p: PartId,
        turn: Turn,
        spent: Spent,
        from: Tick,
        to: Tick,
        walk: &mut Walk<'_>,
    ) -> Turn
        requires partition { p < length self.old.accounts }
        requires frame { plan.now.frame ≤ 1000000 }
        requires time { to ≤ LAST_TICK }
        requires due { turn.start < to }
        requires coming { IsComing (own_ticks plan.now p) to (account_at p self.old).account.next turn }
        requires from { turn.start ≤ from }
        requires near { from ≤ 2 ^ 41 }
        requires steps { (account_at p self.old).account.steps ≤ LAST_TICK }
        requires lost { (account_at p self.old).account.lost ≤ 2 ^ 60 }
        requires walk { IsAt plan.now p turn.end walk.old }
        ensures on { turn.start < from → turn.start < result.start }
        ensures coming { IsComing (own_ticks plan.now p) to (account_at p self.new).account.next result }
        ensures gone { (s : State) → (account_at p self.old).account ≡ s.account →
            HasDecided (limits_at p self.old.kept) turn.start (turn.end - turn.start) spent s.part (part_at p self.old.kept) →
            IsFreeFrom turn.start (turn.end - turn.start) spent to (part_at p self.old.kept) from →
            self.new ≡ put_state p (after_ticks (own_ticks plan.now p) (limits_at p self.old.kept) turn.start (result.start - turn.start) s) self.old }
        ensures walk { result.start < to → IsAt plan.now p result.end walk.new }
    {
        plan.is_plan();
        let room = (turn.end.ticks() - turn.start.ticks()) as u32;
        let status = self.tables.status(p);
        let account = &mut self.accounts[p.index()];
        let (next, end) = next_turn(plan, p, status, from, turn.end, walk);
        account.count(next, room, spent, &self.tables, p);
        coming(account.next(), end, to)
    }

    /// Plain steps of the partition and quiet calls, the first at its next decision, with which the turn begins, each
    /// in place of a decision and counted as one: as many as come before `to`, over any number of windows. What else
    /// may come is asked once, before the first. Returns the next turn, which is the same, and nothing changes, where
    /// the next decision is no such step of a quiet partition, and a later one where it is a plain step of one.
    fn rows(&mut self, plan: &WindowPlan, p: PartId, turn: Turn, to: Tick) -> Turn
        requires partition { p < length self.old.accounts }
        requires windows { AreWindowsOf (length self.old.accounts) plan.now }
        requires time { to ≤ LAST_TICK }
        requires due { turn.start < to }
        requires coming { IsComing (own_ticks plan.now p) to (account_at p self.old).account.next turn }
        requires behind { IsBehind turn.start (state_at p self.old) }
        ensures from { turn.start ≤ result.start }
        ensures plain { IsPlainAt (limits_at p self.old.kept) turn.start (part_at p self.old.kept) → turn.start < result.start }
        ensures coming { IsComing (own_ticks plan.now p) to (account_at p self.new).account.next result }
        ensures gone { self.new ≡ gone_on (own_ticks plan.now p) p turn.start (result.start - turn.start) self.old }
        ensures steady { AreSteady (part_at p self.old.kept) (states_from (own_ticks plan.now p) (limits_at p self.old.kept) turn.start (state_at p self.old)) turn.start result.start }
    {
        let _parts = self.parts();
        plan.is_plan();
        match self.quiet_until(p, turn.start, to) {
            Some(quiet) => self.rows_on(plan, p, turn, quiet, to, quiet.stop),
            None => turn,
        }
    }

    /// Plain steps of a quiet partition and quiet calls, as `rows` says of them, before its stop; behind the first row
    /// and the call that ends it, only such as begin before `until`, so that nothing happens behind a call where that
    /// is not after the turn's first tick. The partition is as quiet as it was, up to that stop. It is `rows_before`
    /// with a walk of its own.
    fn rows_on(
        &mut self,
        plan: &WindowPlan,
        p: PartId,
        turn: Turn,
        quiet: Quiet,
        to: Tick,
        until: Tick,
    ) -> Turn
        requires partition { p < length self.old.accounts }
        requires windows { AreWindowsOf (length self.old.accounts) plan.now }
        requires time { to ≤ LAST_TICK }
        requires order { turn.start < quiet.stop }
        requires within { quiet.stop ≤ to }
        requires until { until ≤ quiet.stop }
        requires quiet { IsStill p turn.start quiet self.old.kept }
        requires coming { IsComing (own_ticks plan.now p) to (account_at p self.old).account.next turn }
        requires behind { IsBehind turn.start (state_at p self.old) }
        ensures from { turn.start ≤ result.start }
        ensures plain { IsPlainAt (limits_at p self.old.kept) turn.start (part_at p self.old.kept) → turn.start < result.start }
        ensures coming { IsComing (own_ticks plan.now p) to (account_at p self.new).account.next result }
        ensures gone { self.new ≡ gone_on (own_ticks plan.now p) p turn.start (result.start - turn.start) self.old }
        ensures steady { AreSteady (part_at p self.old.kept) (states_from (own_ticks plan.now p) (limits_at p self.old.kept) turn.start (state_at p self.old)) turn.start result.start }
        ensures last { until ≤ turn.start → IsStillBehindCall (states_from (own_ticks plan.now p) (limits_at p self.old.kept) turn.start (state_at p self.old)) turn.start result.start }
        ensures still { IsStill p result.start quiet self.new.kept }
    {
        let _parts = self.parts();
        let mut walk = plan.walk(p, self.accounts[p.index()].near);
        let RowEnd { turn: next, .. } = self.rows_before(
            plan, p, turn, quiet, to, until, &mut walk,
        );
        self.keep_near(p, walk.near());
        next
    }

    /// The rows and calls of `rows_on`, by a walk that is at the turn's window and then at the next turn's. Returns the
    /// next turn, and whether its step is known to be a call. It has two callers, so it is compiled as a function of
    /// its own, and what it calls is compiled into it.
    #[inline(never)]
    fn rows_before(
        &mut self,
        plan: &WindowPlan,
        p: PartId,
        turn: Turn,
        quiet: Quiet,
        to: Tick,
        until: Tick,
        walk: &mut Walk<'_>,
    ) -> RowEnd
        requires partition { p < length self.old.accounts }
        requires windows { AreWindowsOf (length self.old.accounts) plan.now }
        requires time { to ≤ LAST_TICK }
        requires order { turn.start < quiet.stop }
        requires within { quiet.stop ≤ to }
        requires until { until ≤ quiet.stop }
        requires quiet { IsStill p turn.start quiet self.old.kept }
        requires coming { IsComing (own_ticks plan.now p) to (account_at p self.old).account.next turn }
        requires behind { IsBehind turn.start (state_at p self.old) }
        requires walk { IsAt plan.now p turn.end walk.old }
        ensures from { turn.start ≤ result.turn.start }
        ensures plain { IsPlainAt (limits_at p self.old.kept) turn.start (part_at p self.old.kept) → turn.start < result.turn.start }
        ensures coming { IsComing (own_ticks plan.now p) to (account_at p self.new).account.next result.turn }
        ensures gone { self.new ≡ gone_on (own_ticks plan.now p) p turn.start (result.turn.start - turn.start) self.old }
        ensures steady { AreSteady (part_at p self.old.kept) (states_from (own_ticks plan.now p) (limits_at p self.old.kept) turn.start (state_at p self.old)) turn.start result.turn.start }
        ensures last { until ≤ turn.start → IsStillBehindCall (states_from (own_ticks plan.now p) (limits_at p self.old.kept) turn.start (state_at p self.old)) turn.start result.turn.start }
        ensures still { IsStill p result.turn.start quiet self.new.kept }
        ensures walk { result.turn.start < to → IsAt plan.now p result.turn.end walk.new }
        ensures call { result.is_call ≡ true → IsCallNext quiet.thread (part_at p self.new.kept) }
    {
        let _parts = self.parts();
        plan.is_plan();
        let mut now = turn;
        let mut is_call = false;
        let mut is_going = true;
        while is_going {
            let end = now.end;
            let RowEnd {
                turn: next,
                is_call: is_known,
            } = self.run_window(plan, p, now, &quiet, to, until, walk);
            is_going = goes_on(is_known, end, next.start, until);
            now = next;
            is_call = is_known;
        }
        RowEnd { turn: now, is_call }
    }

    /// Keeps where the partition was last found among its windows, which changes nothing that is said of it.
    fn keep_near(&mut self, p: PartId, near: Near)
        requires { p < length self.old.accounts }
        ensures { self.new ≡ self.old }
    {
        let _parts = self.parts();
        self.accounts[p.index()].near = near;
    }

    /// Steps of a quiet partition in the turn's window, the first at its next decision, with which the turn begins:
    /// plain ones, and the quiet calls between them; behind the first row and the call that ends it, only such as begin
    /// before `until`. Returns the next turn, and whether its step is known to be a call.
    #[inline(always)]
    fn run_window(
        &mut self,
        plan: &WindowPlan,
        p: PartId,
        turn: Turn,
        quiet: &Quiet,
        to: Tick,
        until: Tick,
        walk: &mut Walk<'_>,
    ) -> RowEnd
        requires partition { p < length self.old.accounts }
        requires windows { AreWindowsOf (length self.old.accounts) plan.now }
        requires time { to ≤ LAST_TICK }
        requires order { turn.start < quiet.now.stop }
        requires within { quiet.now.stop ≤ to }
        requires quiet { IsStill p turn.start quiet.now self.old.kept }
        requires coming { IsComing (own_ticks plan.now p) to (account_at p self.old).account.next turn }
        requires behind { IsBehind turn.start (state_at p self.old) }
        requires walk { IsAt plan.now p turn.end walk.old }
        ensures from { turn.start ≤ result.turn.start }
        ensures on { turn.end ≤ result.turn.start → turn.start < result.turn.start }
        ensures plain { IsPlainAt (limits_at p self.old.kept) turn.start (part_at p self.old.kept) → turn.start < result.turn.start }
        ensures coming { IsComing (own_ticks plan.now p) to (account_at p self.new).account.next result.turn }
        ensures gone { self.new ≡ gone_on (own_ticks plan.now p) p turn.start (result.turn.start - turn.start) self.old }
        ensures steady { AreSteady (part_at p self.old.kept) (states_from (own_ticks plan.now p) (limits_at p self.old.kept) turn.start (state_at p self.old)) turn.start result.turn.start }
        ensures last { until ≤ turn.start → IsStillBehindCall (states_from (own_ticks plan.now p) (limits_at p self.old.kept) turn.start (state_at p self.old)) turn.start result.turn.start }
        ensures still { IsStill p result.turn.start quiet.now self.new.kept }
        ensures walk { result.turn.start < to → IsAt plan.now p result.turn.end walk.new }
        ensures call { result.is_call ≡ true → IsCallNext quiet.now.thread (part_at p self.new.kept) }
    {
        let within = quiet_within(quiet, turn.end);
        self.run_within(plan, p, turn, &within, to, until, walk)
    }

    /// Steps of a quiet partition in a row, the first at its next decision, with which the turn begins, each in place
    /// of a decision and counted as one: plain ones, and quiet calls that end at its stop or before; behind the first
    /// plain ones and the call that follows them, only such as begin before `until`. Returns the next turn, which is
    /// the same, and nothing changes, where the next step is neither of the two, and whether its step is known to be a
    /// call. The partition is as quiet as it was, up to that stop or a later one.
    #[inline(always)]
    #[tactic(auto, using(crate::proofs::States::states))]
    fn run_within(
        &mut self,
        plan: &WindowPlan,
        p: PartId,
        turn: Turn,
        quiet: &Quiet,
        to: Tick,
        until: Tick,
        walk: &mut Walk<'_>,
    ) -> RowEnd
        requires partition { p < length self.old.accounts }
        requires frame { plan.now.frame ≤ 1000000 }
        requires time { to ≤ LAST_TICK }
        requires order { turn.start < quiet.now.stop }
        requires end { quiet.now.stop ≤ turn.end }
        requires within { quiet.now.stop ≤ to }
        requires quiet { IsStill p turn.start quiet.now self.old.kept }
        requires coming { IsComing (own_ticks plan.now p) to (account_at p self.old).account.next turn }
        requires behind { IsBehind turn.start (state_at p self.old) }
        requires walk { IsAt plan.now p turn.end walk.old }
        ensures from { turn.start ≤ result.turn.start }
        ensures plain { IsPlainAt (limits_at p self.old.kept) turn.start (part_at p self.old.kept) → turn.start < result.turn.start }
        ensures coming { IsComing (own_ticks plan.now p) to (account_at p self.new).account.next result.turn }
        ensures gone { self.new ≡ gone_on (own_ticks plan.now p) p turn.start (result.turn.start - turn.start) self.old }
        ensures steady { AreSteady (part_at p self.old.kept) (states_from (own_ticks plan.now p) (limits_at p self.old.kept) turn.start (state_at p self.old)) turn.start result.turn.start }
        ensures last { until ≤ turn.start → IsStillBehindCall (states_from (own_ticks plan.now p) (limits_at p self.old.kept) turn.start (state_at p self.old)) turn.start result.turn.start }
        ensures still { (stop : ℕ) → quiet.now.stop ≤ stop → IsStillTo p turn.start stop quiet.now.thread self.old.kept → IsStillTo p result.turn.start stop quiet.now.thread self.new.kept }
        ensures walk { result.turn.start < to → IsAt plan.now p result.turn.end walk.new }
        ensures call { result.is_call ≡ true → IsCallNext quiet.now.thread (part_at p self.new.kept) }
    {
        plan.is_plan();
        let Turn { start, end } = turn;
        let account = &mut self.accounts[p.index()];
        let reached = run_quiet(
            &mut self.tables,
            p,
            *quiet,
            start,
            until,
            &mut account.trace,
        );
        if reached.is_call && reached.tick.ticks() < quiet.stop.ticks() {
            account.count_row(Some(reached.tick), reached.steps);
            return RowEnd {
                turn: Turn {
                    start: reached.tick,
                    end,
                },
                is_call: true,
            };
        }
        let (next, end) = turn_on(plan, p, reached.tick, end, walk);
        account.count_row(next, reached.steps);
        RowEnd {
            turn: coming(account.next(), end, to),
            is_call: reached.is_call,
        }
    }
}

/// Whether the window with this end was gone through, the tick that was reached is before `until`, and its step is not
/// known to be a call.
#[inline(always)]
fn goes_on(is_call: bool, end: Tick, reached: Tick, until: Tick) -> bool
    ensures { result ≡ true → (end ≤ reached) × (reached < until) }
{
    !is_call && end.ticks() <= reached.ticks() && reached.ticks() < until.ticks()
}

/// The quiet partition up to the end of a window at most.
#[inline(always)]
fn quiet_within(quiet: &Quiet, end: Tick) -> Quiet
    ensures thread { result.thread ≡ quiet.now.thread }
    ensures stop { result.stop ≡ min quiet.now.stop end }
{
    Quiet {
        thread: quiet.thread,
        stop: Tick::new(quiet.stop.ticks().min(end.ticks())),
    }
}

/// From which tick the partition's next decision is looked for, after one at the tick with this room whose outcome is
/// `spent`: behind the ticks that the decision takes up. After an idle one it may have nothing to do up to a later
/// tick, at most `to`; then from that one. No tick at which it has nothing to do is missed.
fn free_from(tables: &Tables, p: PartId, tick: Tick, room: u32, spent: Spent, to: Tick) -> Tick
    requires partition { p < length tables.now.limits }
    requires time { tick ≤ LAST_TICK }
    requires near { room ≤ 1000000 }
    requires short { cost_in spent ≤ longest_step }
    ensures free { IsFreeFrom tick room spent to (part_at p tables.now) result }
    ensures full { (k : ℕ) → spent ≡ Spent.Idle → k ≤ to → IsIdle k (part_at p tables.now) → k ≤ result }
{
    let after = tick.ticks() + u64::from(duration(room, spent));
    match spent {
        Spent::Idle => idle_from(tables, p, Tick::new(after), to),
        Spent::Lost | Spent::Step(_) => Tick::new(after),
    }
}

/// Up to which tick the partition has nothing to do, at most `to`, where that is after the tick, else the tick.
pub fn idle_from(tables: &Tables, p: PartId, tick: Tick, to: Tick) -> Tick
    requires partition { p < length tables.now.limits }
    ensures from { tick ≤ result }
    ensures idle { tick < result → (result ≤ to) × IsIdle result (part_at p tables.now) }
    ensures full { (k : ℕ) → k ≤ to → IsIdle k (part_at p tables.now) → k ≤ result }
{
    match stays_idle_until(tables, p, to) {
        Some(until) if tick.ticks() < until.ticks() => until,
        _ => tick,
    }
}

/// What is known before any partition is looked at, in a run that goes on to this tick.
#[inline(always)]
fn none_yet(to: Tick) -> First
    ensures turn { result.turn ≡ record { start = to; end = to } }
    ensures stop { result.stop ≡ to }
{
    First {
        p: PartId::new(0),
        turn: Turn { start: to, end: to },
        stop: to,
    }
}

/// The partition that decides first, of those so far and one more, whose turn this is, if it has one.
#[inline(always)]
fn first_of(so_far: First, p: PartId, due: Option<Turn>) -> First
    ensures none { due ≡ None → result ≡ so_far }
    ensures sooner { (turn : Turn) → due ≡ Some turn → turn.start < so_far.turn.start → result ≡ record { p = p; turn = turn; stop = so_far.turn.start } }
    ensures later { (turn : Turn) → due ≡ Some turn → so_far.turn.start ≤ turn.start → result ≡ record so_far { stop = min so_far.stop turn.start } }
{
    let Some(turn) = due else {
        return so_far;
    };
    let First {
        p: first,
        turn: so_far,
        stop,
    } = so_far;
    if turn.start.ticks() < so_far.start.ticks() {
        return First {
            p,
            turn,
            stop: so_far.start,
        };
    }
    First {
        p: first,
        turn: so_far,
        stop: Tick::new(stop.ticks().min(turn.start.ticks())),
    }
}

/// The turn that begins with this next decision, in a window with this end, where that is before `to`.
fn coming(next: Option<Tick>, end: Tick, to: Tick) -> Turn
    ensures within { result.start ≤ to }
    ensures due { result.start < to → next ≡ Some result.start }
    ensures end { result.start < to → result.end ≡ end }
    ensures before { (k : ℕ) → next ≡ Some k → result.start ≤ k }
{
    match next {
        Some(start) if start.ticks() < to.ticks() => Turn { start, end },
        _ => Turn { start: to, end: to },
    }
}

/// The partition's first own tick from this one on, none where it is halted, and the end of the window that holds it.
/// Where the tick lies before `end`, it is in the partition's window with that end. The walk is at that window, where
/// it is known to be at one, and then at the one that is returned.
#[inline(always)]
fn next_turn(
    plan: &WindowPlan,
    p: PartId,
    status: Status,
    tick: Tick,
    end: Tick,
    walk: &mut Walk<'_>,
) -> (Option<Tick>, Tick)
    requires frame { plan.now.frame ≤ 1000000 }
    requires time { tick ≤ 2 ^ 41 }
    requires window { tick < end → IsInWindow (own_ticks plan.now p) tick end }
    requires walk { IsAt plan.now p end walk.old }
    ensures next { result.0 ≡ next_from (own_ticks plan.now p) status tick }
    ensures from { IfSome result.0 (λ next. tick ≤ next) }
    ensures window { IfSome result.0 (λ next. IsInWindow (own_ticks plan.now p) next result.1) }
    ensures walk { IfSome result.0 (λ next. IsAt plan.now p result.1 walk.new) }
{
    plan.is_plan();
    if !status.is_active() {
        return (None, end);
    }
    if tick.ticks() <= end.ticks() {
        return turn_on(plan, p, tick, end, walk);
    }
    match walk.turn_from(tick) {
        Some(turn) => (Some(turn.start), turn.end),
        None => (None, end),
    }
}

/// The partition's first own tick from this one on, which is not after `end`, and the end of the window that holds it.
/// Where the tick lies before `end`, it is in the partition's window with that end. The walk is at that window, where
/// it is known to be at one, and then at the one that is returned.
#[inline(always)]
fn turn_on(
    plan: &WindowPlan,
    p: PartId,
    tick: Tick,
    end: Tick,
    walk: &mut Walk<'_>,
) -> (Option<Tick>, Tick)
    requires frame { plan.now.frame ≤ 1000000 }
    requires time { tick ≤ 2 ^ 41 }
    requires before { tick ≤ end }
    requires window { tick < end → IsInWindow (own_ticks plan.now p) tick end }
    requires walk { IsAt plan.now p end walk.old }
    ensures next { result.0 ≡ (own_ticks plan.now p).next_of tick }
    ensures from { IfSome result.0 (λ next. tick ≤ next) }
    ensures window { IfSome result.0 (λ next. IsInWindow (own_ticks plan.now p) next result.1) }
    ensures walk { IfSome result.0 (λ next. IsAt plan.now p result.1 walk.new) }
{
    plan.is_plan();
    if tick.ticks() < end.ticks() {
        return (Some(tick), end);
    }
    match walk.turn_after(tick) {
        Some(turn) => (Some(turn.start), turn.end),
        None => (None, end),
    }
}
