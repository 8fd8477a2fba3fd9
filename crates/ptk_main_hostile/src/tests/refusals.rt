//! Out of memory. Here memory is ample, and each call succeeds at once; `hostile/refuse` runs these tests again with
//! one allocation refused, each in turn. Then the call reports out of memory and nothing else, leaves what it was
//! given, and succeeds as it is asked again. The tests ask for no memory besides.

use ptk_asm::assemble;
use ptk_config::{Config, read_config};
use ptk_image::{Image, read_image, write_image};
use ptk_main_guests::{Files, System, run_on_to};
use ptk_words::PartId;
use std::alloc::Global;
use std::process::Abort;

/// Two partitions with one image, input, and a plan.
const CONFIG: &str = "frame = 40
window = [{ start = 0, length = 20, partition = \"p\" }, { start = 20, length = 20, partition = \"q\" }]
plan = [{ from = 2, window = [{ start = 0, length = 40, partition = \"p\" }] }]
[[partition]]
name = \"p\"
image = \"p.img\"
memory = 4096
threads = 4
stack = 256
mutexes = 4
conds = 4
keys = 4
interval = 100
ring = 16
output = 64
trace = 16
input = [{ at = 0, bytes = [97, 98] }, { at = 1, bytes = [99] }]
[[partition]]
name = \"q\"
image = \"p.img\"
memory = 4096
threads = 4
stack = 256
mutexes = 4
conds = 4
keys = 4
interval = 100
ring = 16
output = 64
trace = 16
";

/// Puts `h` and `i` and exits with 0. It has each section and two labels.
const SOURCE: &str = "_start: li a7, 1
        li a0, 104  # h
        ecall
        li a7, 1
        li a0, 105  # i
        ecall
        li a7, 0
        li a0, 0
        ecall
.data
place:  .word place
.bss
        .space 4
";

/// Its image: 24 bytes of the header, nine words, and the word at 0x24.
const IMAGE: [u8; 64] = [
    0x50, 0x54, 0x4b, 0x49, 0x01, 0x00, 0x00, 0x00, 0x00, 0x00, 0x00, 0x00, 0x24, 0x00, 0x00, 0x00,
    0x04, 0x00, 0x00, 0x00, 0x04, 0x00, 0x00, 0x00, 0x93, 0x08, 0x10, 0x00, 0x13, 0x05, 0x80, 0x06,
    0x73, 0x00, 0x00, 0x00, 0x93, 0x08, 0x10, 0x00, 0x13, 0x05, 0x90, 0x06, 0x73, 0x00, 0x00, 0x00,
    0x93, 0x08, 0x00, 0x00, 0x13, 0x05, 0x00, 0x00, 0x73, 0x00, 0x00, 0x00, 0x24, 0x00, 0x00, 0x00,
];

// The configuration.
fn config(rt: &impl Abort, alloc: Global) -> Option<Config> {
    match read_config(alloc, CONFIG) {
        Ok(config) => Some(config),
        Err(fault) => {
            assert!(rt; fault.number() == 8);
            read_config(alloc, CONFIG).ok()
        }
    }
}

#[test]
fn a_configuration_is_refused_memory(rt: HostRuntime) {
    assert!(rt; config(&rt, rt.alloc()).is_some());
}

// The image that is read.
fn image(rt: &impl Abort, alloc: Global) -> Option<Image> {
    match read_image(alloc, &IMAGE) {
        Ok(image) => Some(image),
        Err(fault) => {
            assert!(rt; fault.number() == 6);
            read_image(alloc, &IMAGE).ok()
        }
    }
}

#[test]
fn an_image_is_refused_memory_as_it_is_read(rt: HostRuntime) {
    assert!(rt; image(&rt, rt.alloc()).is_some());
}

// Writes an image, twice if memory is refused.
fn written(alloc: Global, image: &Image) -> Option<Vec<u8>> {
    match write_image(alloc, image) {
        Ok(bytes) => Some(bytes),
        Err(_) => write_image(alloc, image).ok(),
    }
}

#[test]
fn an_image_is_refused_memory_as_it_is_written(rt: HostRuntime) {
    match image(&rt, rt.alloc()) {
        Some(image) => match written(rt.alloc(), &image) {
            Some(bytes) => assert!(rt; bytes.as_slice() == IMAGE.as_slice()),
            None => assert!(rt; false, "not written"),
        },
        None => assert!(rt; false, "not read"),
    }
}

#[test]
fn a_source_is_refused_memory(rt: HostRuntime) {
    let image = match assemble(rt.alloc(), SOURCE) {
        Ok(image) => Some(image),
        Err(fault) => {
            assert!(rt; fault.kind.number() == 7);
            assemble(rt.alloc(), SOURCE).ok()
        }
    };
    match image {
        Some(image) => {
            assert!(rt; image.text() == &IMAGE[24..60]);
            assert!(rt; image.data() == &IMAGE[60..]);
            assert!(rt; image.bss() == 4);
        }
        None => assert!(rt; false, "not assembled"),
    }
}

// Adds a file, twice if memory is refused: then nothing of the files changed.
fn add(rt: &impl Abort, files: &mut Files, name: &str, content: &[u8], before: Option<&[u8]>) {
    if files.add(name, content).is_err() {
        assert!(rt; files.get(name) == before);
        assert!(rt; files.add(name, content).is_ok());
    }
    check_content(rt, files, name, content);
}

// Asserts that the file of a name has this content.
fn check_content(rt: &impl Abort, files: &Files, name: &str, content: &[u8]) {
    assert!(rt; files.get(name) == Some(content));
}

#[test]
fn files_are_refused_memory(rt: HostRuntime) {
    let first: Option<&[u8]> = Some(b"first");
    let mut files = Files::new(rt.alloc());
    add(&rt, &mut files, "p.img", b"first", None);
    add(&rt, &mut files, "q.img", b"second", None);
    check_content(&rt, &files, "p.img", b"first");
    add(&rt, &mut files, "p.img", &IMAGE, first);
    check_content(&rt, &files, "q.img", b"second");
}

// The system at tick 0.
fn booted<'a>(
    rt: &impl Abort,
    alloc: Global,
    config: &'a Config,
    files: &'a Files,
) -> Option<System<'a>> {
    match System::boot(alloc, config, files) {
        Ok(system) => Some(system),
        Err(fault) => {
            assert!(rt; fault.number() == 1);
            System::boot(alloc, config, files).ok()
        }
    }
}

#[test]
fn a_boot_is_refused_memory(rt: HostRuntime) {
    let alloc = rt.alloc();
    let mut files = Files::new(alloc);
    add(&rt, &mut files, "p.img", &IMAGE, None);
    match config(&rt, alloc) {
        Some(config) => assert!(rt; booted(&rt, alloc, &config, &files).is_some()),
        None => assert!(rt; false, "no configuration"),
    }
}

// Asserts what is shown at tick 40.
fn check_told(rt: &impl Abort, system: &System<'_>) {
    let _parts = system.parts();
    let p = PartId::new(0);
    assert!(rt; system.steps(p) == 9);
    assert!(rt; system.lost(p) == 0);
    assert!(rt; system.output(p) == b"hi".as_slice());
    let mut bytes = [0u8; 92];
    let mut room = bytes.as_mut_slice();
    assert!(rt; system.report(&mut room).is_ok());
    let want =
        b"partition p exit 0 steps 9 lost 0\noutput 2\nhi\npartition q exit 0 steps 9 lost 0\noutput 2\nhi\n";
    assert!(rt; bytes.as_slice() == want.as_slice());
    let mut bytes = [0u8; 400];
    let mut room = bytes.as_mut_slice();
    assert!(rt; system.trace(p).lines(&mut room).is_ok());
    let first = b"0 1 0x00000000 0x00100893 0x00000000\n";
    assert!(rt; bytes.as_slice().starts_with(first));
}

// As many allocations are asked for as by a boot alone.
#[test]
fn a_run_asks_for_no_memory(rt: HostRuntime) {
    let alloc = rt.alloc();
    let mut files = Files::new(alloc);
    add(&rt, &mut files, "p.img", &IMAGE, None);
    match config(&rt, alloc) {
        Some(config) => match booted(&rt, alloc, &config, &files) {
            Some(mut system) => {
                run_on_to(&mut system, 40);
                check_told(&rt, &system);
            }
            None => assert!(rt; false, "no boot"),
        },
        None => assert!(rt; false, "no configuration"),
    }
}
