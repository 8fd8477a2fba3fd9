//! Each line of the table with its status, and the line of each refusal.

use ptk_config::ConfigFault;
use ptk_main_tools::{FailureKind, Fault, fault_line};
use ptk_words::ImageFault;
use ptk_words_model::WindowFault;
use std::alloc::{AllocError, Global};

/// Faults with their line and status.
static LINES: [(Fault<'static>, &str, u8); 14] = [
    (Fault::Config(4), "ptk: config fault 4\n", 1),
    (Fault::ConfigWindow(2), "ptk: config fault 7 window 2\n", 1),
    (Fault::Asm(2, 4), "ptk: asm line 2 fault 4\n", 1),
    (Fault::Image("p.img", 3), "ptk: image p.img fault 3\n", 1),
    (
        Fault::MissingFile("a.toml"),
        "ptk: missing file a.toml\n",
        1,
    ),
    (Fault::NotText("a.toml"), "ptk: not text a.toml\n", 1),
    (Fault::NoPartition("z"), "ptk: no partition z\n", 1),
    (Fault::ReadFailed("p.img"), "ptk: read failed p.img\n", 3),
    (Fault::Symbols("p.sym", 3), "ptk: symbols p.sym line 3\n", 1),
    (
        Fault::NothingFrom(20),
        "ptk: nothing to show from tick 20\n",
        1,
    ),
    (
        Fault::Differs(12, 2, Some(65), None),
        "ptk: report differs at byte 12 line 2: got 65, expected end\n",
        4,
    ),
    (
        Fault::FailedOn("p", FailureKind::Idle),
        "ptk: partition p is idle\n",
        4,
    ),
    (Fault::WriteFailed, "ptk: write failed\n", 3),
    (Fault::NoMemory, "ptk: no memory\n", 3),
];

/// Whether a fault writes this line and has this status.
fn is_told(alloc: Global, fault: &Fault<'_>, line: &str, status: u8) -> bool {
    let mut out = Vec::new(alloc);
    match fault_line(fault, &mut out) {
        Ok(answer) => answer == status && out.as_slice() == line.as_bytes(),
        Err(_) => false,
    }
}

#[test]
fn each_line_has_its_status(rt: HostRuntime) {
    for (fault, line, status) in LINES.iter() {
        assert!(rt; is_told(rt.alloc(), fault, line, *status), "{line}");
    }
}

/// Whether a fault says that memory ran out.
fn is_no_memory(fault: Fault<'_>) -> bool {
    match fault {
        Fault::NoMemory => true,
        _ => false,
    }
}

#[test]
fn out_of_memory_is_one_line(rt: HostRuntime) {
    assert!(rt; is_no_memory(Fault::of_config(ConfigFault::Memory)));
    let window = ConfigFault::Window(WindowFault::Memory);
    assert!(rt; is_no_memory(Fault::of_config(window)));
    assert!(rt; is_no_memory(Fault::of_image("p.img", ImageFault::Memory)));
    assert!(rt; is_no_memory(Fault::of_asm(2, 7)));
    assert!(rt; is_no_memory(Fault::from(AllocError)));
}

/// Refusals of a configuration, and their faults.
static REFUSALS: [(ConfigFault, Fault<'static>); 11] = [
    (ConfigFault::Text, Fault::Config(1)),
    (ConfigFault::MissingKey, Fault::Config(2)),
    (ConfigFault::WrongType, Fault::Config(3)),
    (ConfigFault::OutOfRange, Fault::Config(4)),
    (ConfigFault::UnknownKey, Fault::Config(5)),
    (ConfigFault::DoubledName, Fault::Config(6)),
    (
        ConfigFault::Window(WindowFault::Empty),
        Fault::ConfigWindow(1),
    ),
    (
        ConfigFault::Window(WindowFault::Short),
        Fault::ConfigWindow(2),
    ),
    (
        ConfigFault::Window(WindowFault::Overlap),
        Fault::ConfigWindow(3),
    ),
    (
        ConfigFault::Window(WindowFault::PastFrame),
        Fault::ConfigWindow(4),
    ),
    (
        ConfigFault::Window(WindowFault::UnknownPartition),
        Fault::ConfigWindow(5),
    ),
];

/// Whether an image's refusal is the fault of this number, of the image `q`.
fn is_image_fault(refusal: ImageFault, number: u8) -> bool {
    Fault::of_image("q", refusal) == Fault::Image("q", number)
}

#[test]
fn refusals_have_their_numbers(rt: HostRuntime) {
    for (refusal, fault) in REFUSALS.iter() {
        assert!(rt; Fault::of_config(*refusal) == *fault);
    }
    assert!(rt; is_image_fault(ImageFault::Length, 4));
    assert!(rt; is_image_fault(ImageFault::Unfit, 7));
}

/// Whether a writer of this much room is too short for a line.
fn is_cut(most: usize) -> bool {
    let mut bytes = [0u8; 15];
    match bytes.get_mut(..most) {
        Some(mut room) => fault_line(&Fault::NoMemory, &mut room).is_err(),
        None => false,
    }
}

#[test]
fn a_writer_that_fails_is_an_error(rt: HostRuntime) {
    for most in 0..15 {
        assert!(rt; is_cut(most), "at {most}");
    }
}
