//! What a step costs.

ghost use Rattle.std.specs.Prelude.{◌≡◌, ℕ, ◌<◌, ◌≤◌};
ghost use Rattle.ptk_words.specs.Calls.{call_of, cost_of};
ghost use Rattle.ptk_words_model.specs.Decision.{step_cost};

use ptk_words::{Call, UNKNOWN_TICKS, cost};
use ptk_words_model::StepKind;

/// The ticks of a step that begins an unwinding, and of one at the return gate (own choice).
const GATE_TICKS: u32 = 4;

/// The ticks of a step, at most 16.
pub fn step_cost(kind: StepKind) -> u32
    ensures value { result ≡ step_cost kind }
    ensures short { result ≤ 16 }
{
    match kind {
        StepKind::UnwindingStart | StepKind::GateStep => GATE_TICKS,
        StepKind::CallStep(number) => cost(number),
        StepKind::InstructionStep => 1,
    }
}

/// The ticks of a call, or of a number that is no call.
#[inline(always)]
pub fn call_cost(known: Option<Call>) -> u32
    ensures value { (number : ℕ) → known ≡ call_of number → result ≡ cost_of number }
    ensures some { 0 < result }
    ensures short { result ≤ 16 }
{
    match known {
        Some(call) => call.cost(),
        None => UNKNOWN_TICKS,
    }
}
