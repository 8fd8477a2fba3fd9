//! The system and its runs.

ghost use Rattle.std.specs.Prelude.{◌≡◌, ◌<◌, ◌≤◌, ℕ, None, Some, IfOk, MatchResult, length, max};
ghost use Rattle.ptk_words.specs.declared.TheConstants.{LAST_TICK};
ghost use Rattle.ptk_system.specs.Going.{GoesOnAsIs, StaysBehindCall};
ghost use Rattle.ptk_system.specs.Missing.{first_missing, missing_in};
ghost use Rattle.ptk_system_machine.specs.Turns.{IsPlainAt};
ghost use Rattle.ptk_system.specs.World.{at_tick, section_at, state_of, world_at};

use crate::booting::{first_machine, first_missing};
use crate::fault::BootFault;
use ptk_config::Config;
use ptk_image::Files;
use ptk_system_machine::Machine;
use ptk_words::Tick;
use std::alloc::Global;
use std::marker::Model;

/// The partitions of a configuration after some ticks, each with its state. Each of them is what it would be alone:
/// that is its invariant (`IsRun`), and `states_are_alone` states it.
#[derive(Drop)]
pub struct System<'a> {
    pub(crate) config: &'a Config,
    files: &'a Files,
    pub(crate) machine: Machine,
    tick: Tick,
}

impl<'a> Model for System<'a> {
    ghost use Rattle.ptk_system.specs.World.{IsRun, World, world_of};

    ghost Value = { World };

    ghost view = { λ a. world_of a.config.now a.files.now a.machine a.tick };

    ghost invariant = { λ a. IsRun a.config.now a.files.now a.machine a.tick };
}

impl<'a> System<'a> {
    /// The system of a configuration at tick 0, with the images of these files. A section without an image starts no
    /// thread, and one whose image is bad is halted alone.
    ///
    /// `BootFault::MissingFile` names the first section whose file is missing, and comes before any pool is made.
    /// `BootFault::Memory` comes only where memory was refused. No later call takes memory.
    pub fn boot(
        alloc: Global,
        config: &'a Config,
        files: &'a Files,
    ) -> Result<System<'a>, BootFault>
        ensures booted { IfOk result (λ system. system ≡ world_at config.now files.now 0) }
        ensures missing { MatchResult result
            (λ _. first_missing files.now config.now.sections ≡ None)
            (λ fault. first_missing files.now config.now.sections ≡ missing_in fault) }
    {
        if let Some(p) = first_missing(config, files) {
            return Err(BootFault::MissingFile(p));
        }
        let machine = first_machine(alloc, config, files)?;
        Ok(System {
            config,
            files,
            machine,
            tick: Tick::new(0),
        })
    }

    /// Goes on to a tick of at most 2^40, and does nothing where it was already reached. Over ticks at which a
    /// partition has nothing to do it costs nothing, however many they are.
    pub fn run_to(&mut self, n: Tick)
        requires { n ≤ LAST_TICK }
        ensures { self.new ≡ at_tick (max self.old.tick n) self.old }
    {
        if self.tick.ticks() < n.ticks() {
            self.go_on(n);
        }
    }

    /// Goes on to a later tick.
    fn go_on(&mut self, n: Tick)
        requires later { self.old.tick < n }
        requires small { n ≤ LAST_TICK }
        ensures { self.new ≡ at_tick n self.old }
    {
        let config = self.config;
        let plan = config.plan();
        self.machine.run(plan, self.tick, n);
        self.tick = n;
    }

    /// Goes on over plain steps and quiet calls of the partition that decides next, to a tick of at most 2^40 that is
    /// not after `n`, and before any other decision. It stays at its tick only where `n` was already reached, or where
    /// a decision at that tick is no plain step of a quiet partition. At each tick on the way each thread does
    /// what it did at the first one, with the same priorities and the same owner of the mutex that it waits for; no
    /// tick is lost, no byte of input is dropped, and each partition's status is the same.
    pub fn compute_to(&mut self, n: Tick)
        requires { n ≤ LAST_TICK }
        ensures from { self.old.tick ≤ self.new.tick }
        ensures within { self.new.tick ≤ max self.old.tick n }
        ensures on { self.old.tick < n → ((p : ℕ) → p < length self.old.config.sections →
            (state_of self.old p).account.next ≡ Some self.old.tick →
            IsPlainAt (section_at self.old.config p).limits self.old.tick (state_of self.old p).part) → self.old.tick < self.new.tick }
        ensures run { self.new ≡ at_tick self.new.tick self.old }
        ensures steady { (p : ℕ) → p < length self.old.config.sections → GoesOnAsIs self.old p self.new.tick }
    {
        if n.ticks() <= self.tick.ticks() {
            return;
        }
        let config = self.config;
        let plan = config.plan();
        self.tick = self.machine.run_row(plan, self.tick, n);
    }

    /// Goes on as `compute_to` does, but over plain steps of one window at most and the quiet call behind them, which
    /// is the last step: up to the tick that is reached nothing happens to its partition behind it. So whoever looks at
    /// the system sees each call by itself. At each tick on the way each thread does what it did at the first one.
    pub fn call_to(&mut self, n: Tick)
        requires { n ≤ LAST_TICK }
        ensures from { self.old.tick ≤ self.new.tick }
        ensures within { self.new.tick ≤ max self.old.tick n }
        ensures on { self.old.tick < n → ((p : ℕ) → p < length self.old.config.sections →
            (state_of self.old p).account.next ≡ Some self.old.tick →
            IsPlainAt (section_at self.old.config p).limits self.old.tick (state_of self.old p).part) → self.old.tick < self.new.tick }
        ensures run { self.new ≡ at_tick self.new.tick self.old }
        ensures steady { (p : ℕ) → p < length self.old.config.sections → GoesOnAsIs self.old p self.new.tick }
        ensures last { (p : ℕ) → p < length self.old.config.sections → StaysBehindCall self.old p self.new.tick }
    {
        if n.ticks() <= self.tick.ticks() {
            return;
        }
        let config = self.config;
        let plan = config.plan();
        self.tick = self.machine.run_call(plan, self.tick, n);
    }

    /// The configuration of its boot.
    pub fn config(&self) -> &'a Config
        ensures { result.now ≡ self.now.config }
    {
        self.config
    }

    /// The tick that was reached.
    pub fn tick(&self) -> Tick
        ensures { result ≡ self.now.tick }
    {
        self.tick
    }
}
