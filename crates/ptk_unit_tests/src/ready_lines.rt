//! A long row of pushes and removals over few stamps, beside the form with a list of its own.

ghost use Rattle.std.specs.Prelude.{◌≡◌, ◌<◌, ◌≤◌, length, All, IfOk};
ghost use Rattle.ptk_threads.specs.Table.{free_table};

use ptk_ready::{Line, LinkedLine, VecLine};
use ptk_threads::Threads;
use ptk_words::{Cpu, PartId, Phase, Policy, Priority, Thread, ThreadNo};
use std::alloc::{AllocError, Global};
use std::process::Abort;

/// A new thread at address 0, which is no main thread.
fn new_thread() -> Thread {
    Thread {
        cpu: Cpu::at(0),
        policy: Policy::Fifo,
        priority: Priority::new(16),
        used: 0,
        is_main: false,
        is_detached: false,
        joiner: None,
        result: 0,
        phase: Phase::Normal,
        wait: None,
    }
}

/// A table with as many slots as these counts, of which the second partition's are all in use. The counts are no
/// numbers here, so that the check does not write the table out.
fn table(alloc: Global, counts: &[u32]) -> Result<Threads, AllocError>
    requires partitions { (1 < length counts.now) × (length counts.now ≤ 8) }
    requires threads { All (λ count. count ≤ 32) counts.now }
    ensures { IfOk result (λ threads. (threads.queues ≡ (free_table counts.now).queues) × (length threads.threads ≡ length counts.now)) }
{
    let mut threads = Threads::build(alloc, counts)?;
    for _ in 0..32 {
        let _ = threads.create(PartId::new(1), new_thread());
    }
    Ok(threads)
}

/// Gives each number the same priority, or its own number as priority.
fn set_all<L: Line>(line: &mut L, threads: &mut Threads, p: PartId, own: bool)
    requires partition { (p < length (L.entries line.old threads.old)) × (p < length threads.old.threads) }
    requires sound { L.is_sound line.old threads.old }
    ensures partition { (p < length (L.entries line.new threads.new)) × (p < length threads.new.threads) }
    ensures sound { L.is_sound line.new threads.new }
{
    for n in 1..33 {
        let level = if own { n } else { 20 };
        line.set_priority(threads, p, ThreadNo::new(n), Priority::new(level));
    }
}

/// Lowers the first thread of the greatest priority, and returns which; None where all are low.
fn lower_first<L: Line>(line: &mut L, threads: &mut Threads, p: PartId) -> Option<ThreadNo>
    requires partition { (p < length (L.entries line.old threads.old)) × (p < length threads.old.threads) }
    requires sound { L.is_sound line.old threads.old }
    ensures partition { (p < length (L.entries line.new threads.new)) × (p < length threads.new.threads) }
    ensures sound { L.is_sound line.new threads.new }
{
    let k = line.first_of_greatest(threads, p)?;
    if threads.stored_priority(p, k) == 1 {
        return None;
    }
    line.set_priority(threads, p, k, Priority::new(1));
    Some(k)
}

/// Adds the line's numbers in their order to a log, and 0 after them.
fn log_line<L: Line>(
    line: &mut L,
    threads: &mut Threads,
    p: PartId,
    log: &mut Vec<u8>,
) -> Result<(), AllocError>
    requires partition { (p < length (L.entries line.old threads.old)) × (p < length threads.old.threads) }
    requires sound { L.is_sound line.old threads.old }
    ensures partition { (p < length (L.entries line.new threads.new)) × (p < length threads.new.threads) }
    ensures sound { L.is_sound line.new threads.new }
{
    set_all(line, threads, p, false);
    for _ in 0..32 {
        if let Some(k) = lower_first(line, threads, p) {
            log.push(k.number())?;
        }
    }
    set_all(line, threads, p, true);
    log.push(0)?;
    Ok(())
}

/// Takes a thread out, if it is in the line, and pushes it at the head or the tail.
fn push_anew<L: Line>(
    rt: &impl Abort,
    line: &mut L,
    threads: &mut Threads,
    p: PartId,
    k: ThreadNo,
    head: bool,
)
    requires partition { (p < length (L.entries line.old threads.old)) × (p < length threads.old.threads) }
    requires sound { L.is_sound line.old threads.old }
    ensures partition { (p < length (L.entries line.new threads.new)) × (p < length threads.new.threads) }
    ensures sound { L.is_sound line.new threads.new }
{
    line.remove(threads, p, k);
    assert!(rt; threads.thread(p, k).is_some());
    assert!(rt; !line.contains(threads, p, k));
    assert!(rt; !threads.is_queued(p, k));
    let level = threads.stored_priority(p, k);
    assert!(rt; level > 0 && level <= 32);
    if head {
        line.push_head(threads, p, k);
    } else {
        line.push_tail(threads, p, k);
    }
}

/// A number from 1 to 32 out of a seed.
fn number(seed: u32) -> ThreadNo {
    ThreadNo::new((seed >> 16 & 31) as u8 + 1)
}

/// The lines after each of a thousand pushes in turn at tail and head, with removals between them.
fn lines_after<L: Line>(
    rt: &impl Abort,
    alloc: Global,
    line: &mut L,
    threads: &mut Threads,
    p: PartId,
) -> Result<Vec<u8>, AllocError>
    requires partition { (p < length (L.entries line.old threads.old)) × (p < length threads.old.threads) }
    requires sound { L.is_sound line.old threads.old }
{
    let mut log = Vec::new(alloc);
    let mut seed: u32 = 7;
    for i in 0..1000 {
        seed = seed.wrapping_mul(1_103_515_245).wrapping_add(12345);
        push_anew(rt, line, threads, p, number(seed), i % 2 == 1);
        log_line(line, threads, p, &mut log)?;
        seed = seed.wrapping_mul(1_103_515_245).wrapping_add(12345);
        line.remove(threads, p, number(seed));
    }
    Ok(log)
}

/// The lines of the second partition, by the form that is linked through the slots.
fn linked_lines(rt: &impl Abort, alloc: Global, counts: &[u32]) -> Result<Vec<u8>, AllocError>
    requires partitions { (1 < length counts.now) × (length counts.now ≤ 8) }
    requires threads { All (λ count. count ≤ 32) counts.now }
{
    let mut threads = table(alloc, counts)?;
    let mut line = LinkedLine::<64>::build(alloc, counts.len())?;
    lines_after(rt, alloc, &mut line, &mut threads, PartId::new(1))
}

/// The same lines, by the form with a list of its own.
fn plain_lines(rt: &impl Abort, alloc: Global, counts: &[u32]) -> Result<Vec<u8>, AllocError>
    requires partitions { (1 < length counts.now) × (length counts.now ≤ 8) }
    requires threads { All (λ count. count ≤ 32) counts.now }
{
    let mut threads = table(alloc, counts)?;
    let mut line = VecLine::build(alloc, counts.len())?;
    lines_after(rt, alloc, &mut line, &mut threads, PartId::new(1))
}

#[test]
fn stamp_renumbering(rt: HostRuntime) -> Result<(), AllocError> {
    let found = linked_lines(&rt, rt.alloc(), &[1, 32])?;
    let wanted = plain_lines(&rt, rt.alloc(), &[1, 32])?;
    assert!(rt; found.len() > 10_000 && found == wanted);
    Ok(())
}
