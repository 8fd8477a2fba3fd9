//! The answer to the question for an impact.

ghost use Rattle.std.specs.Prelude.{◌≡◌, ◌≢◌, None, IfErr, OnOk};
ghost use Rattle.ptk_impact_answers.specs.Refusals.{IsFirstFault, missing_of};

use crate::form::Form;
use crate::matching::Releases;
use crate::release::Release;
use crate::tally::Tally;
use ptk_main_runs::PutFault;
use ptk_main_tools::Fault;
use std::alloc::Global;
use std::io::Write;

/// What is asked for.
#[derive(Clone, Copy)]
pub struct Question<'a> {
    /// The name of the one partition that is asked for, None if all are.
    pub partition: Option<&'a str>,
    /// The partitions that have another name, `OLD=NEW` with commas between them.
    pub rename: Option<&'a str>,
}

impl<'a> Question<'a> {
    /// Whether the partition of this name is asked for.
    pub(crate) fn is_for(&self, name: &str) -> bool {
        match self.partition {
            Some(asked) => name == asked,
            None => true,
        }
    }
}

/// Writes how two configurations differ: a line for each partition of the new one that is asked for, by its name or by
/// the one that it had, with what differs beneath, then a line for each that is gone, and a last line that counts.
/// Returns the counts: how many of these partitions are unchanged, unchanged but for the trace kept, changed, new and
/// gone. If none is changed, new or gone, each is the same run in both, and at least one is compared.
///
/// `Fault::MissingFile` names the first image that is not there, those of the old configuration first; else
/// `Fault::NoPartition` what is no rename or has the old or the new name of an earlier one, a renamed one that one of
/// them has not, or an asked name that neither configuration has. Nothing is written before either. Any other fault is
/// one of the host.
pub fn impact_with<'a, 'f, W: Write>(
    alloc: Global,
    old: Release<'a, 'f>,
    new: Release<'a, 'f>,
    question: Question<'a>,
    out: &mut W,
) -> Result<Tally, Fault<'a>>
    ensures first { IfErr result (IsFirstFault (missing_of old.entry new.entry)) }
    ensures there { OnOk result (missing_of old.entry new.entry ≡ None) }
    ensures silent { IfErr result (λ fault. fault ≢ Fault.NoMemory → fault ≢ Fault.WriteFailed → out.new ≡ out.old) }
{
    impact_in(Form::Lines, alloc, old, new, question, out)
}

/// Writes the same comparison as `impact_with`, as one JSON object on one line with `\n` after it: an object for each
/// of these partitions, in the same order, and the counts. Returns the same counts, and the same faults come.
pub fn impact_json_with<'a, 'f, W: Write>(
    alloc: Global,
    old: Release<'a, 'f>,
    new: Release<'a, 'f>,
    question: Question<'a>,
    out: &mut W,
) -> Result<Tally, Fault<'a>>
    ensures first { IfErr result (IsFirstFault (missing_of old.entry new.entry)) }
    ensures there { OnOk result (missing_of old.entry new.entry ≡ None) }
    ensures silent { IfErr result (λ fault. fault ≢ Fault.NoMemory → fault ≢ Fault.WriteFailed → out.new ≡ out.old) }
{
    impact_in(Form::Json, alloc, old, new, question, out)
}

/// Writes how two configurations differ, in a form, and returns the counts.
fn impact_in<'a, 'f, W: Write>(
    form: Form,
    alloc: Global,
    old: Release<'a, 'f>,
    new: Release<'a, 'f>,
    question: Question<'a>,
    out: &mut W,
) -> Result<Tally, Fault<'a>>
    ensures first { IfErr result (IsFirstFault (missing_of old.entry new.entry)) }
    ensures there { OnOk result (missing_of old.entry new.entry ≡ None) }
    ensures silent { IfErr result (λ fault. fault ≢ Fault.NoMemory → fault ≢ Fault.WriteFailed → out.new ≡ out.old) }
{
    let releases = Releases::of(alloc, old, new, &question)?;
    match releases.put(form, alloc, &question, out) {
        Ok(tally) => Ok(tally),
        Err(PutFault::Memory) => Err(Fault::NoMemory),
        Err(PutFault::Write) => Err(Fault::WriteFailed),
    }
}
