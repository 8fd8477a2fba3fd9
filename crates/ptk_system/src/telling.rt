//! What a system shows of each partition.

ghost use Rattle.std.specs.Prelude.{◌≡◌, ◌<◌, ◌≤◌, ℕ, length, slice_get};
ghost use Rattle.ptk_words_model.specs.Priority.{thread_at};
ghost use Rattle.ptk_system_machine.specs.Kept.{AreParts, limits_at, part_at};
ghost use Rattle.ptk_config.specs.Configuration.{IsConfiguration};
ghost use Rattle.ptk_system_machine.specs.Whole.{state_at};
ghost use Rattle.ptk_system.specs.Told.{live_cpu, pc_in, register_in, status_in};
ghost use Rattle.ptk_system.specs.World.{alone_in, section_at, state_of, world_at};

use crate::status::PartStatus;
use crate::system::System;
use ptk_system_machine::{Machine, Tables};
use ptk_trace::Trace;
use ptk_words::{Cpu, Limits, PartId, ThreadNo};

impl<'a> System<'a> {
    /// How many partitions there are, 1 to 8. It opens the invariant: the configuration is one without a fault.
    pub fn parts(&self) -> usize
        ensures configured { IsConfiguration self.now.config }
        ensures count { result ≡ length self.now.config.sections }
        ensures some { 1 ≤ result }
        ensures few { result ≤ 8 }
    {
        let config = self.config;
        config.parts()
    }

    /// Each partition's state is the one that the definition gives it alone, of its own ticks, its section's numbers,
    /// its image and its input, after the ticks that were reached. It opens the invariant, and does nothing.
    pub fn states_are_alone(&self)
        ensures configured { IsConfiguration self.now.config }
        ensures count { length self.now.states ≡ length self.now.config.sections }
        ensures alone { (p : ℕ) → p < length self.now.config.sections →
            state_of self.now p ≡ alone_in self.now.config self.now.files p self.now.tick }
        ensures all { self.now ≡ world_at self.now.config self.now.files self.now.tick }
    {
        let _ = &self.machine;
    }

    /// The numbers of a partition's section.
    pub fn limits(&self, p: PartId) -> Limits
        requires { p < length self.now.config.sections }
        ensures { result ≡ (section_at self.now.config p).limits }
    {
        self.config().sections()[p.index()].limits()
    }

    /// The tables and accounts of all partitions, which are their states.
    pub(crate) fn kept(&self) -> &Machine
        ensures count { length result.now.accounts ≡ length self.now.config.sections }
        ensures sections { length result.now.kept.limits ≡ length self.now.config.sections }
        ensures limits { (p : ℕ) → p < length self.now.config.sections → limits_at p result.now.kept ≡ (section_at self.now.config p).limits }
        ensures states { (p : ℕ) → p < length self.now.config.sections → state_at p result.now ≡ state_of self.now p }
    {
        &self.machine
    }

    /// The tables: each section's partition has its part in them, and there is no other part.
    pub fn tables(&self) -> &Tables
        ensures count { length result.now.limits ≡ length self.now.config.sections }
        ensures parts { AreParts (length self.now.config.sections) result.now }
        ensures limits { (p : ℕ) → p < length self.now.config.sections → limits_at p result.now ≡ (section_at self.now.config p).limits }
        ensures states { (p : ℕ) → p < length self.now.config.sections → part_at p result.now ≡ (state_of self.now p).part }
    {
        self.kept().tables()
    }

    /// A register of a thread. None where there is no such thread, it has ended, or `i` is above 31.
    pub fn register(&self, p: PartId, thread: ThreadNo, i: u32) -> Option<u32>
        requires { p < length self.now.config.sections }
        ensures { result ≡ register_in thread i (state_of self.now p).part }
    {
        match self.live_cpu(p, thread) {
            Some(cpu) if i < 32 => Some(cpu.register(i)),
            _ => None,
        }
    }

    /// The pc of a thread. None where there is no such thread, or it has ended.
    pub fn pc(&self, p: PartId, thread: ThreadNo) -> Option<u32>
        requires { p < length self.now.config.sections }
        ensures { result ≡ pc_in thread (state_of self.now p).part }
    {
        let cpu = self.live_cpu(p, thread)?;
        Some(cpu.pc())
    }

    /// The registers of a thread that has not ended.
    fn live_cpu(&self, p: PartId, thread: ThreadNo) -> Option<Cpu>
        requires { p < length self.now.config.sections }
        ensures { result ≡ live_cpu (thread_at (state_of self.now p).part.locks thread) }
    {
        match self.kept().tables().threads().thread(p, thread) {
            Some(thread) if !thread.phase.is_ended() => Some(thread.cpu),
            _ => None,
        }
    }

    /// The byte at an address, None outside the partition's memory.
    pub fn byte(&self, p: PartId, address: u32) -> Option<u8>
        requires { p < length self.now.config.sections }
        ensures { result ≡ slice_get (state_of self.now p).part.memory address }
    {
        self.kept().tables().regions().read(p, address)
    }

    /// The output so far.
    pub fn output(&self, p: PartId) -> &[u8]
        requires { p < length self.now.config.sections }
        ensures { result.now ≡ (state_of self.now p).part.console.output }
    {
        self.kept().tables().output(p)
    }

    /// How many input bytes were lost, the ring being full.
    pub fn dropped(&self, p: PartId) -> u64
        requires { p < length self.now.config.sections }
        ensures { result ≡ (state_of self.now p).part.console.dropped }
    {
        self.kept().tables().dropped(p)
    }

    /// What the partition does, or why it is halted.
    pub fn status(&self, p: PartId) -> PartStatus
        requires { p < length self.now.config.sections }
        ensures { result ≡ status_in (state_of self.now p).part }
    {
        let tables = self.kept().tables();
        let busy = tables.running(p).is_some() || tables.has_ready(p);
        PartStatus::of(tables.status(p), busy)
    }

    /// How many steps its threads made.
    pub fn steps(&self, p: PartId) -> u64
        requires { p < length self.now.config.sections }
        ensures { result ≡ (state_of self.now p).account.steps }
    {
        self.kept().account(p).steps()
    }

    /// How many ticks it lost, at ends of windows for which a step cost too much.
    pub fn lost(&self, p: PartId) -> u64
        requires { p < length self.now.config.sections }
        ensures { result ≡ (state_of self.now p).account.lost }
    {
        self.kept().account(p).lost()
    }

    /// Its last steps, as many as its section keeps.
    #[tactic(auto, using(crate::proofs::Runs::traces))]
    pub fn trace(&self, p: PartId) -> &Trace
        requires { p < length self.now.config.sections }
        ensures { result.now ≡ record { capacity = (section_at self.now.config p).limits.trace; entries = (state_of self.now p).account.trace } }
    {
        self.kept().account(p).trace()
    }
}
