//! Laws of systems, each the contract of a function without code of its own.

ghost use Rattle.std.specs.Prelude.{◌≡◌, ◌≢◌, ◌+◌, ◌<◌, ◌≤◌, length, max};
ghost use Rattle.ptk_words.specs.declared.TheConstants.{LAST_TICK};
ghost use Rattle.ptk_words_model.specs.OwnTicksLaws.{OwnTicksAreApart};
ghost use Rattle.ptk_words_model.specs.Windows.{own_ticks};
ghost use Rattle.ptk_system.specs.Laws.{IsByDecision, IsIdleBut, SameView, StepStaysInWindow, StepsAreApart};
ghost use Rattle.ptk_system.specs.Shown.{part_report};
ghost use Rattle.ptk_system.specs.World.{at_tick, section_at, state_of};

use crate::system::System;
use ptk_words::{PartId, Tick};

/// Two systems that reached the same tick, and a partition of each, with the same own ticks and window ends, numbers,
/// image and input: it is in the same state in both, and its part of the report is the same where its name is. Its
/// place among the sections, the others, and the others' windows may differ.
#[tactic(auto, using(crate::proofs::Views::views))]
pub fn two_worlds(a: &System, b: &System, p: PartId, q: PartId)
    requires view { SameView a.now p b.now q }
    requires tick { a.now.tick ≡ b.now.tick }
    ensures states { state_of a.now p ≡ state_of b.now q }
    ensures reports { (section_at a.now.config p).name ≡ (section_at b.now.config q).name → part_report a.now p ≡ part_report b.now q }
{
    a.states_are_alone();
    b.states_are_alone();
}

/// Two systems that reached the same tick, and a partition of each as in `two_worlds`, where the second system's other
/// sections name no image: whatever the others run, the partition is what it is among idle ones.
pub fn idle_world(a: &System, b: &System, p: PartId, q: PartId)
    requires view { SameView a.now p b.now q }
    requires idle { IsIdleBut q b.now }
    requires tick { a.now.tick ≡ b.now.tick }
    ensures states { state_of a.now p ≡ state_of b.now q }
    ensures reports { (section_at a.now.config p).name ≡ (section_at b.now.config q).name → part_report a.now p ≡ part_report b.now q }
{
    two_worlds(a, b, p, q);
}

/// In a window plan without a fault (`accepted_is_plan` of `ptk_words_model`) all ticks of a decision's step lie in
/// one window of its partition, and no tick is two partitions': so no two steps of a system share a tick.
pub fn one_processor()
    ensures within { StepStaysInWindow }
    ensures apart { OwnTicksAreApart }
{}

/// With a tick a partition's state changes by a decision alone, which takes place at a tick of its own, with the rest
/// of the window as its room; with any other tick it stays.
#[tactic(auto, using(crate::proofs::OwnDecisions::decisions))]
pub fn decisions_are_own(system: &System, p: PartId, tick: Tick)
    requires { p < length system.now.config.sections }
    ensures { IsByDecision (own_ticks system.now.config.plan p) (section_at system.now.config p).limits tick
        (state_of (at_tick tick system.now) p) (state_of (at_tick (tick + 1) system.now) p) }
{}

/// No two partitions' steps share a tick: all ticks of a step lie in the window in which its decision took place.
#[tactic(auto, using(crate::proofs::OwnDecisions::decisions))]
pub fn steps_are_apart(system: &System, p: PartId, q: PartId)
    requires { p ≢ q }
    ensures { StepsAreApart system.now p q }
{
    system.states_are_alone();
}

/// Running to m and then to n, m at most n, is running to n.
pub fn stop_on_the_way(system: &mut System, m: Tick, n: Tick)
    requires order { m ≤ n }
    requires small { n ≤ LAST_TICK }
    ensures { system.new ≡ at_tick (max system.old.tick n) system.old }
{
    system.run_to(m);
    system.run_to(n);
}
