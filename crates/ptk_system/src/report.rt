//! The report.

ghost use Rattle.std.specs.Prelude.{◌<◌, OnOk, length};
ghost use Rattle.std.specs.Io.KnownBytes.{Appends};
ghost use Rattle.ptk_words_model.specs.Text.{output_text};
ghost use Rattle.ptk_words_model.specs.Text.{head_line};
ghost use Rattle.ptk_system.specs.Shown.{part_lines, part_report, report_of, shown_status};

use crate::status::PartStatus;
use crate::system::System;
use ptk_trace::Decimal;
use ptk_words::PartId;
use std::io;
use std::io::Write;

impl<'a> System<'a> {
    /// Writes each section's part of the report, in their order, and takes no memory. An error where the writer fails;
    /// the system stays as it was, and nothing is said of what the writer got before.
    #[tactic(auto, using(crate::proofs::Reports::reports))]
    pub fn report<W: Write>(&self, out: &mut W) -> io::Result<()>
        ensures { OnOk result (Appends (W.contents out.old) (W.contents out.new) (report_of self.now)) }
    {
        for i in 0..self.parts() {
            self.report_part(out, PartId::new(i as u8))?;
        }
        Ok(())
    }

    /// Writes a partition's part of the report.
    #[tactic(auto, using(crate::proofs::Reports::texts))]
    fn report_part<W: Write>(&self, out: &mut W, p: PartId) -> io::Result<()>
        requires { p < length self.now.config.sections }
        ensures { OnOk result (Appends (W.contents out.old) (W.contents out.new) (part_report self.now p)) }
    {
        let config = self.config;
        let name = config.sections()[p.index()].name();
        let (steps, lost) = (self.steps(p), self.lost(p));
        put_part(out, name, self.status(p), steps, lost, self.output(p))
    }
}

/// Writes the lines of a partition.
fn put_part<W: Write>(
    out: &mut W,
    name: &str,
    status: PartStatus,
    steps: u64,
    lost: u64,
    output: &[u8],
) -> io::Result<()>
    ensures { OnOk result (Appends (W.contents out.old) (W.contents out.new) (part_lines name.now status steps lost output.now)) }
{
    put_head(out, name, status, steps, lost)?;
    put_output(out, output)
}

/// Writes the line with the name, the status and the counts.
fn put_head<W: Write>(
    out: &mut W,
    name: &str,
    status: PartStatus,
    steps: u64,
    lost: u64,
) -> io::Result<()>
    ensures { OnOk result (Appends (W.contents out.old) (W.contents out.new) (head_line name.now (shown_status status) steps lost)) }
{
    let (steps, lost) = (Decimal(steps), Decimal(lost));
    writeln!(out, "partition {name} {status} steps {steps} lost {lost}")
}

/// Writes the line with the output's length, and the output.
fn put_output<W: Write>(out: &mut W, output: &[u8]) -> io::Result<()>
    ensures { OnOk result (Appends (W.contents out.old) (W.contents out.new) (output_text output.now)) }
{
    let len = Decimal(output.len() as u64);
    writeln!(out, "output {len}")?;
    out.write_all(output)?;
    out.write_all(b"\n")
}
