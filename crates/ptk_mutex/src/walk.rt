//! The walk along a chain that stops at the first thread that is at least as high.

ghost use Rattle.std.specs.Prelude.{◌≡◌, ◌+◌, ◌<◌, ◌≤◌, length};
ghost use Rattle.ptk_words.specs.declared.TheConstants.{THREAD_LIMIT};
ghost use Rattle.ptk_words.specs.Parts.{part_of};
ghost use Rattle.ptk_threads.specs.Links.{threads_of};
ghost use Rattle.ptk_threads.specs.Table.{stored_of};
ghost use Rattle.ptk_roster.specs.Raised.{risen};
ghost use Rattle.ptk_mutex.specs.Visits.{reads};
ghost use Rattle.ptk_mutex.specs.Rosters.{with_priorities, next_at};

use ptk_roster::{Roster, next_in_chain};
use ptk_threads::Slot;
use ptk_words::{PartId, Priority, ThreadNo};

/// The slots of a partition, by number from 1.
pub(crate) fn slots_of(roster: &Roster, p: PartId) -> &[Slot]
    requires { p < length roster.now.table.threads }
    ensures slots { threads_of result.now ≡ part_of roster.now.table.threads p }
    ensures few { length result.now ≤ 32 }
{
    roster.threads().part(p)
}

/// The next thread of a chain: the owner of the INHERIT mutex that the thread waits for
/// (pthread_mutexattr_getprotocol).
pub(crate) fn next_in(roster: &Roster, p: PartId, t: ThreadNo) -> Option<ThreadNo>
    requires { p < length roster.now.table.threads }
    ensures { result ≡ next_at p roster.now t }
{
    next_in_chain(slots_of(roster, p), roster.mutex_slots(p), t)
}

/// Each thread of the chain, up to the first that is at least as high, has at least this priority. Returns how many
/// stored priorities that read.
#[inline(never)]
pub(crate) fn rise(roster: &mut Roster, p: PartId, u: ThreadNo, priority: u8) -> u32
    requires partition { p < length roster.old.table.threads }
    requires in_range { priority ≤ 32 }
    ensures stored { roster.new ≡ with_priorities p (risen (next_at p roster.old) priority (length (part_of roster.old.table.threads p)) u (part_of roster.old.table.stored p)) roster.old }
    ensures visited { result ≡ reads (next_at p roster.old) priority (length (part_of roster.old.table.threads p)) u (part_of roster.old.table.stored p) }
    ensures few { result ≤ THREAD_LIMIT + 1 }
{
    let steps = slots_of(roster, p).len();
    let mut visited = 0;
    raise_until(roster, p, u, priority, steps, &mut visited);
    visited
}

/// The same, of a chain of at most `fuel` steps; each read is counted.
fn raise_until(
    roster: &mut Roster,
    p: PartId,
    u: ThreadNo,
    priority: u8,
    fuel: usize,
    visited: &mut u32,
)
    requires partition { p < length roster.old.table.threads }
    requires in_range { priority ≤ 32 }
    requires room { visited.old + fuel < 100 }
    ensures stored { roster.new ≡ with_priorities p (risen (next_at p roster.old) priority fuel u (part_of roster.old.table.stored p)) roster.old }
    ensures visited { visited.new ≡ visited.old + reads (next_at p roster.old) priority fuel u (part_of roster.old.table.stored p) }
    ensures few { visited.new ≤ visited.old + fuel + 1 }
{
    if visit(roster, p, u, visited) >= priority {
        return;
    }
    roster.set_priority(p, u, Priority::new(priority));
    if fuel == 0 {
        return;
    }
    match next_in(roster, p, u) {
        Some(v) => raise_until(roster, p, v, priority, fuel - 1, visited),
        None => {}
    }
}

/// The stored priority of a thread, read and counted.
fn visit(roster: &Roster, p: PartId, t: ThreadNo, visited: &mut u32) -> u8
    requires partition { p < length roster.now.table.threads }
    requires room { visited.old < 100 }
    ensures told { result ≡ stored_of (part_of roster.now.table.stored p) t }
    ensures counted { visited.new ≡ visited.old + 1 }
{
    *visited += 1;
    roster.stored_priority(p, t)
}
