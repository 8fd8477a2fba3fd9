//! Where a run ends: at any tick on the way, at a writer that fails, and at its faults.

ghost use Rattle.std.specs.Prelude.{◌≤◌};

use super::{
    ALONE, FULL_TRACE, HELLO_REPORT, SHORT, SHORT_TRACE, TWO, first, first_steps, is_first_output,
    is_some_text, pair_of, parts_of, run_on, trace_on,
};
use crate::sources::HELLO;
use crate::{
    BootFault, Config, Files, RunFault, System, booted, guest_of, report_now, run_on_to, trace_now,
};
use ptk_words::PartId;
use std::alloc::Global;
use std::process::Abort;

// Whether this is the system's report.
fn is_told(alloc: Global, system: &System<'_>, want: &str) -> bool {
    is_some_text(report_now(alloc, system), want)
}

// Whether this is the trace of the system's first partition.
fn is_traced(alloc: Global, system: &System<'_>, want: &str) -> bool {
    is_some_text(trace_now(alloc, system, 0), want)
}

// Row cut-run: stops at 3, 10 and 40 on the way, and asserts what is shown there.
fn check_stops(rt: &impl Abort, alloc: Global, system: &mut System<'_>) {
    run_on_to(system, 0);
    run_on_to(system, 3);
    assert!(rt; first_steps(system) == 3);
    assert!(rt; is_first_output(system, "h"));
    run_on_to(system, 10);
    assert!(rt; first_steps(system) == 6);
    assert!(rt; is_first_output(system, "hi"));
    assert!(rt;
        is_told(
            alloc,
            system,
            "partition p running steps 6 lost 0\noutput 2\nhi\n"
        )
    );
    run_on_to(system, 40);
    assert!(rt; first_steps(system) == 9);
    assert!(rt; is_told(alloc, system, HELLO_REPORT));
    assert!(rt; is_traced(alloc, system, FULL_TRACE));
}

#[test]
fn a_run_may_stop_on_the_way(rt: HostRuntime) {
    let alloc = rt.alloc();
    match guest_of(alloc, &ALONE, &[HELLO]) {
        Some((config, files)) => match booted(alloc, &config, &files) {
            Some(mut system) => check_stops(&rt, alloc, &mut system),
            None => assert!(rt; false, "no boot"),
        },
        None => assert!(rt; false, "no memory"),
    }
}

// Whether a writer with this much room, of at most 80 bytes, takes the report.
fn fits_report(system: &System<'_>, most: usize) -> bool
    requires { most ≤ 80 }
{
    let mut bytes = [0u8; 80];
    let mut room = &mut bytes[..most];
    system.report(&mut room).is_ok()
}

// Whether a writer with this much room, of at most 80 bytes, takes the trace of the first partition.
fn fits_trace(system: &System<'_>, most: usize) -> bool
    requires { most ≤ 80 }
{
    let mut bytes = [0u8; 80];
    let mut room = &mut bytes[..most];
    system.trace(first(system)).lines(&mut room).is_ok()
}

// Asserts that a writer takes the report, or the trace, if and only if it has room for it, and that the system then
// shows both.
fn check_writers(rt: &impl Abort, alloc: Global, system: &System<'_>) {
    assert!(rt; parts_of(system) == 1);
    // Row failing-report.
    for most in 0..46 {
        assert!(rt; !fits_report(system, most), "at {most}");
    }
    assert!(rt; fits_report(system, 46));
    // Row failing-trace.
    for most in 0..76 {
        assert!(rt; !fits_trace(system, most), "at {most}");
    }
    assert!(rt; fits_trace(system, 76));
    assert!(rt; is_told(alloc, system, HELLO_REPORT));
    assert!(rt; is_traced(alloc, system, SHORT_TRACE));
    assert!(rt; first_steps(system) == 9);
    assert!(rt; is_first_output(system, "hi"));
}

#[test]
fn a_writer_that_fails_leaves_the_system(rt: HostRuntime) {
    let alloc = rt.alloc();
    match guest_of(alloc, &SHORT, &[HELLO]) {
        Some((config, files)) => match booted(alloc, &config, &files) {
            Some(mut system) => {
                run_on_to(&mut system, 20);
                check_writers(&rt, alloc, &system);
            }
            None => assert!(rt; false, "no boot"),
        },
        None => assert!(rt; false, "no memory"),
    }
}

// Whether this is a writer's failure.
fn is_write_failed(outcome: Result<(), RunFault>) -> bool {
    match outcome {
        Err(RunFault::Write) => true,
        _ => false,
    }
}

// What `run_with` returns for 20 ticks and a writer with this much room, of at most 80 bytes.
fn run_into(alloc: Global, config: &Config, files: &Files, most: usize) -> Result<(), RunFault>
    requires { most ≤ 80 }
{
    let mut bytes = [0u8; 80];
    let mut room = &mut bytes[..most];
    run_on(alloc, config, files, 20, &mut room)
}

// What `trace_with` returns for p, 20 ticks and a writer with this much room, of at most 80 bytes.
fn trace_into(alloc: Global, config: &Config, files: &Files, most: usize) -> Result<(), RunFault>
    requires { most ≤ 80 }
{
    let mut bytes = [0u8; 80];
    let mut room = &mut bytes[..most];
    trace_on(alloc, config, files, 20, "p", &mut room)
}

// Asserts that a run's report, and its trace, are written if and only if the writer has room for them.
fn check_rooms(rt: &impl Abort, alloc: Global, config: &Config, files: &Files) {
    // Row failing-report.
    for most in 0..46 {
        assert!(rt;
            is_write_failed(run_into(alloc, config, files, most)),
            "at {most}"
        );
    }
    assert!(rt; run_into(alloc, config, files, 46).is_ok());
    // Row failing-trace.
    for most in 0..76 {
        assert!(rt;
            is_write_failed(trace_into(alloc, config, files, most)),
            "at {most}"
        );
    }
    assert!(rt; trace_into(alloc, config, files, 76).is_ok());
}

#[test]
fn a_run_ends_where_its_writer_fails(rt: HostRuntime) {
    let alloc = rt.alloc();
    match guest_of(alloc, &SHORT, &[HELLO]) {
        Some((config, files)) => check_rooms(&rt, alloc, &config, &files),
        None => assert!(rt; false, "no memory"),
    }
}

// Asserts what a writer of 40 bytes makes of a report and of two traces.
fn check_short_writers(rt: &impl Abort, alloc: Global, config: &Config, files: &Files) {
    let mut bytes = [0u8; 40];
    let mut room = bytes.as_mut_slice();
    assert!(rt; is_write_failed(run_on(alloc, config, files, 20, &mut room)));
    let mut bytes = [0u8; 40];
    let mut room = bytes.as_mut_slice();
    assert!(rt; trace_on(alloc, config, files, 20, "q", &mut room).is_ok());
    assert!(rt; is_write_failed(trace_on(alloc, config, files, 20, "p", &mut room)));
}

// Whether this is the want of the image of the partition at this place.
fn is_missing(outcome: Result<(), RunFault>, place: u8) -> bool {
    outcome == Err(RunFault::Boot(BootFault::MissingFile(PartId::new(place))))
}

// Whether no partition has the name.
fn is_unknown(outcome: Result<(), RunFault>) -> bool {
    match outcome {
        Err(RunFault::NoPartition) => true,
        _ => false,
    }
}

// Asserts that an unknown name comes before missing files, and the first missing file before the second.
fn check_missing(rt: &impl Abort, alloc: Global, config: &Config) {
    let mut out = Vec::new(alloc);
    let mut files = Files::new(alloc);
    assert!(rt; is_unknown(trace_on(alloc, config, &files, 20, "z", &mut out)));
    assert!(rt; is_missing(run_on(alloc, config, &files, 20, &mut out), 0));
    assert!(rt; files.add("p.img", b"").is_ok());
    assert!(rt; is_missing(trace_on(alloc, config, &files, 20, "p", &mut out), 1));
    assert!(rt; out.is_empty());
}

#[test]
fn faults_of_runs(rt: HostRuntime) {
    let alloc = rt.alloc();
    match pair_of(alloc, &TWO, HELLO, HELLO) {
        Some((config, files)) => {
            check_short_writers(&rt, alloc, &config, &files);
            check_missing(&rt, alloc, &config);
        }
        None => assert!(rt; false, "no memory"),
    }
}
