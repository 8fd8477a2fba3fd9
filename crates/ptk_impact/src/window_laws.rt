//! Laws of agreement, each the contract of a function without code.

ghost use Rattle.ptk_impact.specs.Agreement.{AgreementSpreads};

/// Partitions that agree for one frame of each plan from the beginning of each stage of either plan agree at all ticks;
/// so do they below a tick, if they agree near those beginnings at the ticks below it.
pub fn agreement_spreads()
    ensures { AgreementSpreads }
{}
