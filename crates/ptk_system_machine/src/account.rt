//! What is counted of one partition.

ghost use Rattle.std.specs.Prelude.{◌≡◌, ◌<◌, ◌≤◌, ◌^◌, ◌+◌, ◌++◌, IfOk, length, option_to_list};
ghost use Rattle.ptk_words.specs.declared.TheConstants.{LAST_TICK};
ghost use Rattle.ptk_words_model.specs.Run.{last_of};
ghost use Rattle.ptk_kernel.specs.Kept.{part_at};
ghost use Rattle.ptk_kernel.specs.Decisions.{longest_step};
ghost use Rattle.ptk_kernel.specs.Spending.{cost_in};
ghost use Rattle.ptk_system_machine.specs.Accounts.{first_account, spent_account, duration_of};

use ptk_kernel::{Tables, last_step};
use ptk_trace::Trace;
use ptk_window::Near;
use ptk_words::{PartId, Tick};
use ptk_words_model::Spent;
use std::alloc::{AllocError, Global};
use std::marker::Model;

/// The tick of a partition's next decision, if there is one, its steps, its lost ticks and its last steps; and where it
/// was last found among its windows, of which nothing is said.
#[derive(Drop)]
pub struct Account {
    next: Option<Tick>,
    steps: u64,
    lost: u64,
    pub(crate) trace: Trace,
    pub(crate) near: Near,
}

impl Model for Account {
    ghost use Rattle.ptk_system_machine.specs.Accounts.{KeptAccount, kept_account_of};

    ghost Value = { KeptAccount };

    ghost view = { λ a. kept_account_of a };
}

impl Account {
    /// The account before the first decision, which is at this tick, with a trace of this many steps, of a
    /// partition that was last found there among its windows. An error where memory ran out. No other call takes
    /// memory.
    pub(crate) fn new(
        alloc: Global,
        next: Option<Tick>,
        trace: u32,
        near: Near,
    ) -> Result<Account, AllocError>
        ensures { IfOk result (λ account. account ≡ record { account = first_account next; capacity = trace }) }
    {
        Ok(Account {
            next,
            steps: 0,
            lost: 0,
            trace: Trace::new(alloc, trace)?,
            near,
        })
    }

    /// The tick of the next decision, None where there is none.
    pub fn next(&self) -> Option<Tick>
        ensures { result ≡ self.now.account.next }
    {
        self.next
    }

    /// How many steps there were.
    pub fn steps(&self) -> u64
        ensures { result ≡ self.now.account.steps }
    {
        self.steps
    }

    /// How many ticks were lost.
    pub fn lost(&self) -> u64
        ensures { result ≡ self.now.account.lost }
    {
        self.lost
    }

    /// The last steps.
    pub fn trace(&self) -> &Trace
        ensures { result.now ≡ record { capacity = self.now.capacity; entries = self.now.account.trace } }
    {
        &self.trace
    }

    /// Counts a decision of the partition with this room, whose outcome is `spent` and which left the tables so: the
    /// tick of the next one, a step and its entry, or the lost ticks.
    #[inline(always)]
    pub(crate) fn count(
        &mut self,
        next: Option<Tick>,
        room: u32,
        spent: Spent,
        tables: &Tables,
        p: PartId,
    )
        requires partition { p < length tables.now.limits }
        requires steps { self.old.account.steps ≤ LAST_TICK }
        requires lost { self.old.account.lost ≤ 2 ^ 60 }
        ensures { self.new ≡ record self.old { account = spent_account next self.old.capacity room spent (part_at p tables.now).last self.old.account } }
    {
        self.next = next;
        match spent {
            Spent::Idle => {}
            Spent::Lost => self.lost += u64::from(room),
            Spent::Step(_) => {
                self.steps += 1;
                self.keep_last(tables, p);
            }
        }
    }

    /// Puts the partition's last step, if there is one, into the trace as the newest. Where the trace keeps none, the
    /// step is not read.
    #[inline(always)]
    fn keep_last(&mut self, tables: &Tables, p: PartId)
        requires { p < length tables.now.limits }
        ensures { self.new ≡ record self.old { account = record self.old.account { trace = last_of self.old.capacity (self.old.account.trace ++ option_to_list (part_at p tables.now).last) } } }
    {
        if self.trace.capacity() == 0 {
            return;
        }
        if let Some(entry) = last_step(tables, p) {
            self.trace.push(entry);
        }
    }

    /// Counts this many steps of a row, whose entries are in the trace, each as a decision: the tick of the next one,
    /// and the steps.
    pub(crate) fn count_row(&mut self, next: Option<Tick>, steps: u64)
        requires steps { self.old.account.steps ≤ LAST_TICK }
        requires more { steps ≤ 2 ^ 41 }
        ensures { self.new ≡ record self.old { account = record self.old.account { next = next; steps = self.old.account.steps + steps } } }
    {
        self.next = next;
        self.steps += steps;
    }
}

/// The ticks that a decision with this room takes up.
pub(crate) fn duration(room: u32, spent: Spent) -> u32
    requires near { room ≤ 1000000 }
    requires short { cost_in spent ≤ longest_step }
    ensures value { result ≡ duration_of room spent }
    ensures near { result ≤ 1000000 }
{
    match spent {
        Spent::Idle => 1,
        Spent::Lost => room,
        Spent::Step(cost) => cost,
    }
}
