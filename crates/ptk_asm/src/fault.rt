//! Why a source is refused.

ghost use Rattle.std.specs.Prelude.{◌≡◌, ◌+◌, ◌≤◌};

use ptk_asm_language::{FaultKind, LineFault, Span};
use thiserror::Error;

/// Why a source is refused: the first fault, its line, and the bytes at fault.
#[derive(Clone, Copy, Debug, PartialEq, Eq, Error)]
#[error("line {line}: {kind}")]
pub struct AsmFault {
    /// The number of the line, counted from 1.
    pub line: usize,
    /// The first byte at fault, counted from the beginning of the source.
    pub from: usize,
    /// The byte after the last one at fault; `from`, the end of the line's code, where something is missing.
    pub to: usize,
    /// What the fault is.
    pub kind: FaultKind,
}

/// The fault of a line in the source: its bytes are those in the line, counted from where the line begins. Those of a
/// fault that is not within the line are cut to it.
pub(crate) fn located(span: &Span, fault: LineFault) -> AsmFault
    requires { span.now.start ≤ span.now.end }
    ensures kind { result.kind ≡ fault.kind }
    ensures line { result.line ≡ span.now.line }
    ensures after_start { span.now.start ≤ result.from }
    ensures ordered { result.from ≤ result.to }
    ensures before_end { result.to ≤ span.now.end }
    ensures first { fault.from ≤ fault.to → span.now.start + fault.to ≤ span.now.end → result.from ≡ span.now.start + fault.from }
    ensures last { span.now.start + fault.to ≤ span.now.end → result.to ≡ span.now.start + fault.to }
{
    let to = fault.to.min(span.end - span.start);
    let from = fault.from.min(to);
    AsmFault {
        line: span.line,
        from: span.start + from,
        to: span.start + to,
        kind: fault.kind,
    }
}
