//! What two partitions have of each pool, and all pools and tables of two sections, made with ample memory.

ghost use Rattle.ptk_words.specs.Ranges.{IsWithinLimits};

use ptk_cancel::Cancellations;
use ptk_console::Consoles;
use ptk_gate_pools::Pools;
use ptk_kernel::Tables;
use ptk_keys::KeyTable;
use ptk_regions::Regions;
use ptk_words::{Arrival, Limits, PartId, Parted, Status, Tick};
use std::alloc::AllocError;

/// The numbers of a section.
fn section() -> Limits
    ensures { IsWithinLimits result }
{
    Limits {
        memory: 4096,
        threads: 4,
        stack: 256,
        mutexes: 4,
        conditions: 4,
        keys: 4,
        interval: 100,
        ring: 16,
        output: 64,
        trace: 16,
    }
}

#[test]
fn lists_lie_side_by_side(rt: HostRuntime) -> Result<(), AllocError> {
    let mut parted = Parted::build(rt.alloc(), &[2, 1], 0u8)?;
    parted.set(PartId::new(1), 0, 9);
    assert!(rt; parted.parts() == 2 && parted.whole() == [0, 0, 9].as_slice());
    Ok(())
}

#[test]
fn a_list_is_added_behind_the_others(rt: HostRuntime) -> Result<(), AllocError> {
    let mut parted = Parted::new(rt.alloc());
    parted.add_part([3, 4].to_vec(rt.alloc())?)?;
    parted.add_part([5].to_vec(rt.alloc())?)?;
    assert!(rt; parted.whole() == [3, 4, 5].as_slice());
    Ok(())
}

#[test]
fn bytes_of_two_partitions(rt: HostRuntime) -> Result<(), AllocError> {
    let mut regions = Regions::build(rt.alloc(), &[2, 3])?;
    assert!(rt; regions.write(PartId::new(0), 1, 7) && regions.write(PartId::new(1), 0, 9));
    assert!(rt; regions.whole() == [0, 7, 9, 0, 0].as_slice());
    Ok(())
}

#[test]
fn cancellations_and_keys_of_two_partitions(rt: HostRuntime) {
    let limits = [section(), section()];
    assert!(rt; Cancellations::build(rt.alloc(), &limits).is_ok());
    assert!(rt; KeyTable::build(rt.alloc(), &limits).is_ok());
}

/// A byte at tick 30.
fn arrival() -> Arrival {
    Arrival {
        tick: Tick::new(30),
        byte: 97,
    }
}

#[test]
fn consoles_of_two_partitions(rt: HostRuntime) -> Result<(), AllocError> {
    let input = [arrival()];
    let consoles = Consoles::build(rt.alloc(), &[section(), section()], &[&input, &[]])?;
    assert!(rt; consoles.next_arrival_tick(PartId::new(0)) == Some(Tick::new(30)));
    assert!(rt; consoles.next_arrival_tick(PartId::new(1)) == None);
    Ok(())
}

#[test]
fn build_makes_the_pools_of_two_sections(rt: HostRuntime) -> Result<(), AllocError> {
    let input = [arrival()];
    let pools = Pools::build(rt.alloc(), &[section(), section()], &[&input, &[]])?;
    assert!(rt; pools.parts() == 2);
    Ok(())
}

#[test]
fn new_makes_the_tables_of_two_sections(rt: HostRuntime) -> Result<(), AllocError> {
    let limits = [section(), section()];
    let input = [arrival()];
    let inputs: [&[Arrival]; 2] = [&input, &[]];
    let tables = Tables::new(rt.alloc(), &limits, &inputs)?;
    assert!(rt; tables.status(PartId::new(1)) == Status::Active);
    Ok(())
}
