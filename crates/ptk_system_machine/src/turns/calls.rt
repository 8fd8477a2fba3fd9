//! How the partitions go on up to a call: for an observer that is to see each call by itself.

ghost use Rattle.std.specs.Prelude.{◌≡◌, ◌<◌, ◌≤◌, ◌-◌, ℕ, Some, length};
ghost use Rattle.ptk_words.specs.declared.TheConstants.{LAST_TICK};
ghost use Rattle.ptk_words_model.specs.Windows.{own_ticks};
ghost use Rattle.ptk_words_laws.specs.Quiet.{after_ticks};
ghost use Rattle.ptk_kernel.specs.Kept.{limits_at, part_at};
ghost use Rattle.ptk_system_machine.specs.Accounts.{IsBehind};
ghost use Rattle.ptk_system_machine.specs.Steady.{AreSteady, IsStillBehindCall, states_from};
ghost use Rattle.ptk_system_machine.specs.Turns.{IsComing, IsPlainAt};
ghost use Rattle.ptk_system_machine.specs.Whole.{AreWindowsOf, account_at, gone_on, state_at};

use crate::machine::Machine;
use ptk_kernel::quiet_until;
use ptk_window::{Turn, WindowPlan};
use ptk_words::{PartId, Tick};

impl Machine {
    /// Goes on from a tick as `run_row` does, but by plain steps of one window at most and the quiet call behind them,
    /// which is the last step. Returns the tick that it reached, which is the first one only where that is `to`, or a
    /// decision at that tick is no plain step of a quiet partition. To each partition it does what this many ticks
    /// would do to that partition alone. At each tick on the way each thread does, and waits for, what it did at the
    /// first one, and behind a call nothing happens to its partition.
    pub fn run_call(&mut self, plan: &WindowPlan, tick: Tick, to: Tick) -> Tick
        requires windows { AreWindowsOf (length self.old.accounts) plan.now }
        requires order { tick ≤ to }
        requires time { to ≤ LAST_TICK }
        requires behind { (p : ℕ) → p < length self.old.accounts → IsBehind tick (state_at p self.old) }
        ensures from { tick ≤ result }
        ensures within { result ≤ to }
        ensures on { tick < to → ((q : ℕ) → q < length self.old.accounts → (account_at q self.old).account.next ≡ Some tick →
            IsPlainAt (limits_at q self.old.kept) tick (part_at q self.old.kept)) → tick < result }
        ensures parts { length self.new.accounts ≡ length self.old.accounts }
        ensures limits { self.new.kept.limits ≡ self.old.kept.limits }
        ensures each { (q : ℕ) → q < length self.old.accounts →
            state_at q self.new ≡ after_ticks (own_ticks plan.now q) (limits_at q self.old.kept) tick (result - tick) (state_at q self.old) }
        ensures steady { (q : ℕ) → q < length self.old.accounts →
            AreSteady (part_at q self.old.kept) (states_from (own_ticks plan.now q) (limits_at q self.old.kept) tick (state_at q self.old)) tick result }
        ensures last { (q : ℕ) → q < length self.old.accounts →
            IsStillBehindCall (states_from (own_ticks plan.now q) (limits_at q self.old.kept) tick (state_at q self.old)) tick result }
    {
        let _parts = self.parts();
        let Some(first) = self.first_due(plan, tick, to) else {
            return to;
        };
        self.call_rows(plan, first.p, first.turn, first.stop).start
    }

    /// Plain steps of the partition and the quiet call behind them, the first at its next decision, with which the turn
    /// begins, each in place of a decision and counted as one: as many plain steps as come before `to` in the turn's
    /// window. Behind the call nothing happens. Returns the next turn, which is the same, and nothing changes, where
    /// the next decision is no step of a quiet partition of this kind, and a later one where it is a plain one.
    fn call_rows(&mut self, plan: &WindowPlan, p: PartId, turn: Turn, to: Tick) -> Turn
        requires partition { p < length self.old.accounts }
        requires windows { AreWindowsOf (length self.old.accounts) plan.now }
        requires time { to ≤ LAST_TICK }
        requires due { turn.start < to }
        requires coming { IsComing (own_ticks plan.now p) to (account_at p self.old).account.next turn }
        requires behind { IsBehind turn.start (state_at p self.old) }
        ensures from { turn.start ≤ result.start }
        ensures plain { IsPlainAt (limits_at p self.old.kept) turn.start (part_at p self.old.kept) → turn.start < result.start }
        ensures coming { IsComing (own_ticks plan.now p) to (account_at p self.new).account.next result }
        ensures gone { self.new ≡ gone_on (own_ticks plan.now p) p turn.start (result.start - turn.start) self.old }
        ensures steady { AreSteady (part_at p self.old.kept) (states_from (own_ticks plan.now p) (limits_at p self.old.kept) turn.start (state_at p self.old)) turn.start result.start }
        ensures last { IsStillBehindCall (states_from (own_ticks plan.now p) (limits_at p self.old.kept) turn.start (state_at p self.old)) turn.start result.start }
    {
        let _parts = self.parts();
        plan.is_plan();
        match quiet_until(&self.tables, p, turn.start, to) {
            Some(quiet) => self.rows_on(plan, p, turn, quiet, to, turn.start),
            None => turn,
        }
    }
}
