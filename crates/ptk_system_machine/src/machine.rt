//! All partitions.

ghost use Rattle.std.specs.Prelude.{◌≡◌, ◌<◌, ◌≤◌, ◌^◌, ℕ, IfOk, length, slice_index_or};
ghost use Rattle.ptk_words_model.specs.Windows.{own_ticks};
ghost use Rattle.ptk_words_model.specs.Run.{next_from};
ghost use Rattle.ptk_words.specs.Faults.{is_active};
ghost use Rattle.ptk_kernel.specs.Kept.{AreParts, limits_at};
ghost use Rattle.ptk_system_machine.specs.Whole.{IsWhole, account_at, first_account_of, no_account};

use crate::account::Account;
use ptk_kernel::Tables;
use ptk_window::{Near, WindowPlan};
use ptk_words::{Limits, PartId, Status, Tick};
use std::alloc::{AllocError, Global};
use std::marker::Model;

/// All partitions' states: the tables, and each partition's account.
pub struct Machine {
    pub(crate) tables: Tables,
    pub(crate) accounts: Vec<Account>,
}

// By hand: a function that drops the machine calls this, and its proof does not spell out the drop of each part.
impl Drop for Machine {
    fn drop(self) {
        let Machine { tables, accounts } = self;
    }
}

impl Model for Machine {
    ghost use Rattle.ptk_system_machine.specs.Whole.{IsWhole, Whole};

    ghost Value = { Whole };

    ghost view = { λ a. record { kept = a.tables; accounts = a.accounts.items } };

    ghost invariant = { λ a. IsWhole a.tables a.accounts.items };
}

impl Machine {
    /// The tables before the first decision of any partition, with the numbers of their sections. An error where memory
    /// ran out. No other call takes memory.
    pub fn start(
        alloc: Global,
        tables: Tables,
        limits: &[Limits],
        plan: &WindowPlan,
    ) -> Result<Machine, AllocError>
        requires few { length limits.now ≤ 8 }
        requires limits { tables.limits ≡ limits.now }
        requires parts { AreParts (length limits.now) tables }
        ensures tables { IfOk result (λ machine. machine.kept ≡ tables) }
        ensures count { IfOk result (λ machine. length machine.accounts ≡ length limits.now) }
        ensures accounts { IfOk result (λ machine. (p : ℕ) → p < length limits.now →
            account_at p machine ≡ first_account_of plan.now tables p) }
    {
        let accounts = first_accounts(alloc, &tables, limits, plan)?;
        Ok(Machine { tables, accounts })
    }

    /// How many partitions there are. It opens the invariant: each partition has an entry in the tables and an account,
    /// whose trace keeps what its section says.
    pub fn parts(&self) -> usize
        ensures count { result ≡ length self.now.accounts }
        ensures whole { IsWhole self.now.kept self.now.accounts }
    {
        self.accounts.len()
    }

    /// The tables of all partitions.
    pub fn tables(&self) -> &Tables
        ensures value { result.now ≡ self.now.kept }
        ensures parts { AreParts (length self.now.accounts) self.now.kept }
    {
        let _parts = self.parts();
        &self.tables
    }

    /// What is counted of a partition.
    pub fn account(&self, p: PartId) -> &Account
        requires { p < length self.now.accounts }
        ensures value { result.now ≡ account_at p self.now }
        ensures kept { result.now.capacity ≡ (limits_at p self.now.kept).trace }
    {
        &self.accounts[p.index()]
    }
}

/// The partitions' accounts before the first decision.
fn first_accounts(
    alloc: Global,
    tables: &Tables,
    limits: &[Limits],
    plan: &WindowPlan,
) -> Result<Vec<Account>, AllocError>
    requires few { length limits.now ≤ 8 }
    requires limits { tables.now.limits ≡ limits.now }
    ensures count { IfOk result (λ accounts. length accounts.items ≡ length limits.now) }
    ensures each { IfOk result (λ accounts. (p : ℕ) → p < length limits.now →
        slice_index_or accounts.items p no_account ≡ first_account_of plan.now tables.now p) }
{
    let mut accounts = Vec::new(alloc);
    for i in 0..limits.len() {
        let p = PartId::new(i as u8);
        let mut near = plan.first_near();
        let next = next_from(plan, p, tables.status(p), Tick::new(0), &mut near);
        accounts.push(Account::new(alloc, next, limits[i].trace, near)?)?;
    }
    Ok(accounts)
}

/// The partition's first own tick from this one on, none where it is halted. `near` is where the partition was last
/// found among its windows.
#[inline]
pub(crate) fn next_from(
    plan: &WindowPlan,
    p: PartId,
    status: Status,
    tick: Tick,
    near: &mut Near,
) -> Option<Tick>
    requires { tick ≤ 2 ^ 41 }
    ensures { result ≡ next_from (own_ticks plan.now p) status tick }
{
    if status.is_active() {
        match plan.turn_from(p, tick, near) {
            Some(turn) => Some(turn.start),
            None => None,
        }
    } else {
        None
    }
}
