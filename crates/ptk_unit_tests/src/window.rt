//! Faults of window plans by number, and own ticks and turns of plans that were made with ample memory.

ghost use Rattle.std.specs.Prelude.{◌≤◌, ◌^◌, All};

use ptk_window::{Near, Window, WindowFault, WindowPlan};
use ptk_words::{PartId, Tick};
use std::alloc::{AllocError, Global};
use std::test::Fail;

fn window(start: u32, length: u32, partition: u8) -> Window {
    Window {
        start,
        length,
        partition: PartId::new(partition),
    }
}

/// The number of the fault of these stages, 0 where there is none.
fn fault(alloc: Global, frame: u32, parts: usize, stages: &[(u64, &[Window])]) -> u8
    requires frame { frame ≤ 1000000 }
    requires numbers { All (λ stage. stage.0 ≤ 2 ^ 36) stages.now }
{
    match WindowPlan::new(alloc, frame, parts, stages) {
        Ok(_) => 0,
        Err(fault) => fault.number(),
    }
}

/// Windows of these starts, lengths and partitions.
fn windows_of(alloc: Global, rows: &[(u32, u32, u8)]) -> Result<Vec<Window>, AllocError> {
    let mut windows = Vec::new(alloc);
    for (start, length, partition) in rows {
        windows.push(window(*start, *length, *partition))?;
    }
    Ok(windows)
}

/// The frame, how many partitions there are, the windows, and the number of their fault.
const FAULTS: [(u32, usize, &[(u32, u32, u8)], u8); 8] = [
    (16, 1, &[], 1),
    (16, 1, &[(0, 15, 0)], 2),
    (16, 1, &[(0, 16, 0)], 0),
    (60, 2, &[(0, 20, 0), (40, 20, 0), (10, 20, 1)], 3),
    (40, 1, &[(30, 20, 0)], 4),
    (40, 1, &[(30, 4294967295, 0)], 4),
    (40, 1, &[(0, 20, 0), (10, 20, 1)], 5),
    (40, 2, &[(0, 20, 0), (10, 20, 1)], 3),
];

#[test]
fn each_fault_has_its_number(rt: HostRuntime) -> Result<(), Fail> {
    for (frame, parts, rows, want) in FAULTS {
        let windows = windows_of(rt.alloc(), rows)?;
        let number = fault(rt.alloc(), frame.min(60), parts, &[(0, &windows)]);
        assert!(rt; number == want, "{parts} in {frame}");
    }
    assert!(rt; WindowFault::from(AllocError).number() == 6);
    Ok(())
}

#[test]
fn the_numbers_of_stages_are_tested_first(rt: HostRuntime) {
    let alloc = rt.alloc();
    let fine = [window(0, 20, 0)];
    let none = [];
    assert!(rt; fault(alloc, 40, 1, &[]) == 7);
    assert!(rt; fault(alloc, 40, 1, &[(1, &fine)]) == 7);
    assert!(rt; fault(alloc, 40, 1, &[(0, &none), (2, &fine), (2, &fine)]) == 7);
    assert!(rt; fault(alloc, 40, 1, &[(0, &fine), (2, &none)]) == 1);
    assert!(rt; fault(alloc, 40, 0, &[(0, &fine), (2, &none)]) == 5);
    assert!(rt; fault(alloc, 40, 1, &[(0, &fine), (68719476736, &fine)]) == 0);
}

/// The turn of the partition from this tick, as the numbers of its start and its end.
fn turn(plan: &WindowPlan, part: PartId, tick: u64, near: &mut Near) -> Option<(u64, u64)> {
    let turn = plan.turn_from(part, Tick::new(tick.min(1 << 41)), near)?;
    Some((turn.start.ticks(), turn.end.ticks()))
}

/// The first tick, turn by turn, and the turn from there.
const TURNS: [(u64, u64, u64); 7] = [
    (0, 0, 20),
    (20, 40, 60),
    (60, 96, 116),
    (100, 100, 116),
    (116, 120, 140),
    (140, 160, 180),
    (10, 10, 20),
];

#[test]
fn turns_over_plans(rt: HostRuntime) -> Result<(), Fail> {
    let first = [window(0, 20, 0), window(20, 20, 1)];
    let later = [window(0, 16, 1), window(16, 20, 0)];
    let plan = WindowPlan::new(rt.alloc(), 40, 2, &[(0, &first), (2, &later), (3, &first)])?;
    let mut near = plan.first_near();
    for (tick, start, end) in TURNS {
        let found = turn(&plan, PartId::new(0), tick, &mut near);
        assert!(rt; found == Some((start, end)), "from {tick}");
    }
    Ok(())
}

#[test]
fn own_ticks_over_plans(rt: HostRuntime) -> Result<(), Fail> {
    let (p, q) = (PartId::new(0), PartId::new(1));
    let first = [window(0, 20, 0), window(20, 20, 1)];
    let swapped = [window(0, 20, 1), window(20, 20, 0)];
    let plan = WindowPlan::new(rt.alloc(), 40, 2, &[(0, &first), (2, &swapped)])?;
    assert!(rt; plan.at(Tick::new(79)) == Some((q, Tick::new(80))));
    assert!(rt; plan.at(Tick::new(80)) == Some((q, Tick::new(100))));
    assert!(rt; plan.next_of(p, Tick::new(60)) == Some(Tick::new(100)));
    // 2^41 is 32 above a multiple of 40, and p has the second half by then
    let last = Tick::new(2_199_023_255_552);
    assert!(rt; plan.next_of(p, last) == Some(last));
    Ok(())
}
