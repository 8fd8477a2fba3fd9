//! The report of a run as one JSON object.

ghost use Rattle.std.specs.Prelude.{◌≡◌, ◌<◌, IfErr, length};

use crate::naming::part_name;
use crate::text::json_text;
use base64::engine::general_purpose::STANDARD;
use ptk_main_runs::{PartStatus, System, Value, cause_word, put_members};
use ptk_main_tools::Fault;
use ptk_words::PartId;
use serde::{Described, Serialize, Serializer};
use std::alloc::Global;

/// A partition's part of the report, with its output in Base64.
#[derive(Clone, Copy)]
struct Partition<'a> {
    name: &'a str,
    status: PartStatus,
    steps: u64,
    lost: u64,
    output: &'a str,
}

impl Described for Partition<'_> {}

impl Serialize for Partition<'_> {
    fn serialize<S: Serializer>(&self, out: &mut S) -> Result<(), S::Error> {
        let counts = [
            ("steps", Value::Number(self.steps)),
            ("lost", Value::Number(self.lost)),
            ("output", Value::Word(self.output)),
        ];
        out.begin_map(None)?;
        put_members(&[("name", Value::Word(self.name))], out)?;
        put_status(self.status, out)?;
        put_members(&counts, out)?;
        out.end_map()
    }
}

/// Puts the members of a status. An error if `out` gives one.
fn put_status<S: Serializer>(status: PartStatus, out: &mut S) -> Result<(), S::Error> {
    match status {
        PartStatus::Idle => put_members(&[("status", Value::Word("idle"))], out),
        PartStatus::Running => put_members(&[("status", Value::Word("running"))], out),
        PartStatus::Exited(code) => {
            let code = Value::Number(u64::from(code));
            put_members(&[("status", Value::Word("exit")), ("code", code)], out)
        }
        PartStatus::Stopped(cause, pc) => {
            let members = [
                ("status", Value::Word("fault")),
                ("cause", Value::Word(cause_word(cause))),
                ("pc", Value::Number(u64::from(pc))),
            ];
            put_members(&members, out)
        }
        PartStatus::Refused(fault) => {
            let number = Value::Number(u64::from(fault.number()));
            let members = [("status", Value::Word("refused")), ("image_fault", number)];
            put_members(&members, out)
        }
    }
}

/// The report of a system as one JSON object and a newline. A fault if memory was refused.
pub(crate) fn document_of(alloc: Global, system: &System<'_>) -> Result<String, Fault<'static>>
    ensures { IfErr result (λ fault. fault ≡ Fault.NoMemory) }
{
    let tick = system.tick().ticks();
    let mut text = format!(in alloc;
        "{{\"format\":\"ptk run 1\",\"ticks\":{tick},\"partitions\":["
    )?;
    for i in 0..system.parts() {
        if i > 0 {
            text.push_str(",")?;
        }
        let part = partition_text(alloc, system, PartId::new(i as u8))?;
        text.push_str(part.as_str())?;
    }
    text.push_str("]}\n")?;
    Ok(text)
}

/// A partition's part of the report as one JSON object. A fault if memory was refused.
fn partition_text(alloc: Global, system: &System<'_>, p: PartId) -> Result<String, Fault<'static>>
    requires { p < length system.now.config.sections }
    ensures { IfErr result (λ fault. fault ≡ Fault.NoMemory) }
{
    let output = STANDARD.encode(alloc, system.output(p))?;
    let partition = Partition {
        name: part_name(system.config(), p),
        status: system.status(p),
        steps: system.steps(p),
        lost: system.lost(p),
        output: output.as_str(),
    };
    json_text(alloc, &partition)
}
