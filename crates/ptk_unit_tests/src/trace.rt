//! What traces write after a boot with ample memory, and what they return where the writer fails.

use ptk_gate_memory::{Memories, Trace};
use ptk_words::{A0, Cpu, Entry, PartId, ThreadNo, Tick};
use std::alloc::{AllocError, Global};

// The two lines that are kept: 76 bytes.
const KEPT: &str = "13 1 0x0000001c 0x00000513 0x00000000\n14 1 0x00000020 0x00000073 0x00000000\n";

// addi a0, a0, 1
const ADD_ONE: u32 = 0x0015_0513;

// A jump to the word before.
const JUMP_BACK: u32 = 0xffdf_f06f;

// The last two of 600 steps of these words, more than two batches: 78 bytes.
const ROW_KEPT: &str =
    "598 1 0x00000000 0x00150513 0x0000012c\n599 1 0x00000004 0xffdff06f 0x0000012c\n";

fn step(tick: u64, pc: u32, word: u32, a0: u32) -> Entry {
    Entry {
        tick: Tick::new(tick),
        thread: ThreadNo::new(1),
        pc,
        word,
        a0,
    }
}

// A program's last three steps, with room for this many.
fn three_steps(alloc: Global, kept: u32) -> Result<Trace, AllocError> {
    let mut trace = Trace::new(alloc, kept)?;
    trace.push(step(8, 0x18, 0x0000_0073, 0));
    trace.push(step(13, 0x1c, 0x0000_0513, 0));
    trace.push(step(14, 0x20, 0x0000_0073, 0));
    Ok(trace)
}

// Whether these lines are written of the trace.
fn is_written(alloc: Global, trace: &Trace, lines: &str) -> bool {
    let mut out = Vec::new(alloc);
    trace.lines(&mut out).is_ok() && out.as_slice() == lines.as_bytes()
}

// Whether a writer of this much room is too short for the trace.
fn is_cut(trace: &Trace, most: usize) -> bool {
    let mut bytes = [0u8; 76];
    match bytes.get_mut(..most) {
        Some(mut room) => trace.lines(&mut room).is_err(),
        None => false,
    }
}

// Runs 600 steps from address 0 of these two words, each kept; how many they were, and a0 after them.
fn row_on(alloc: Global, trace: &mut Trace) -> Result<(u32, u32), AllocError> {
    let mut memories = Memories::build(alloc, &[8])?;
    let p = PartId::new(0);
    memories.store_word(p, 0, ADD_ONE);
    memories.store_word(p, 4, JUMP_BACK);
    let mut cpu = Cpu::at(0);
    let mut last = None;
    let thread = ThreadNo::new(1);
    let steps = memories.run_row(p, &mut cpu, Tick::new(0), thread, 600, trace, &mut last);
    Ok((steps, cpu.register(A0)))
}

#[test]
fn a_row_is_kept_as_its_steps_one_by_one(rt: HostRuntime) -> Result<(), AllocError> {
    let mut trace = Trace::new(rt.alloc(), 2)?;
    assert!(rt; row_on(rt.alloc(), &mut trace)? == (600, 300));
    assert!(rt; is_written(rt.alloc(), &trace, ROW_KEPT));
    Ok(())
}

#[test]
fn room_for_none_keeps_none(rt: HostRuntime) -> Result<(), AllocError> {
    let trace = three_steps(rt.alloc(), 0)?;
    assert!(rt; is_written(rt.alloc(), &trace, ""));
    Ok(())
}

#[test]
fn a_writer_that_fails_is_an_error_and_the_trace_stays(rt: HostRuntime) -> Result<(), AllocError> {
    let trace = three_steps(rt.alloc(), 2)?;
    for most in 0..76 {
        assert!(rt; is_cut(&trace, most), "at {most}");
    }
    assert!(rt; !is_cut(&trace, 76));
    assert!(rt; is_written(rt.alloc(), &trace, KEPT));
    Ok(())
}
