//! Times as ticks, the deadlines of some slots in both forms, and those of two partitions' threads, made with ample
//! memory.

use ptk_clock::{PlainDeadlines, SharedDeadlines, ThreadDeadlines, from_tick, to_tick};
use ptk_words::{PartId, SlotNo, ThreadNo, Tick};
use std::alloc::AllocError;

#[test]
fn a_deadline_is_the_least_tick_not_before_its_time(rt: HostRuntime) {
    // Row tick-conversion.
    assert!(rt; to_tick(0, 1) == Tick::new(1));
    assert!(rt; to_tick(0, 1000) == Tick::new(1));
    assert!(rt; to_tick(0, 1001) == Tick::new(2));
    assert!(rt; to_tick(-1, 0) == Tick::new(0));
    assert!(rt; from_tick(Tick::new(1_000_001)) == (1, 1000));
}

#[test]
fn each_partition_has_its_own_deadlines(rt: HostRuntime) -> Result<(), AllocError> {
    assert!(rt; SharedDeadlines::new(rt.alloc(), 4).is_ok());
    assert!(rt; PlainDeadlines::new(rt.alloc(), 4).is_ok());
    let mut deadlines = ThreadDeadlines::build(rt.alloc(), &[2, 3])?;
    deadlines.set(PartId::new(1), ThreadNo::new(1), Some(Tick::new(50)));
    assert!(rt; deadlines.next(PartId::new(0)) == None);
    assert!(rt; deadlines.shared().pairs() == [(Tick::new(50), SlotNo::new(2))].as_slice());
    Ok(())
}
