//! A roster to start from.

ghost use Rattle.std.specs.Prelude.{◌≡◌, ◌≤◌, [], None, length, replicate, map, IfOk, All};
ghost use Rattle.ptk_words.specs.Parts.{filled};
ghost use Rattle.ptk_threads.specs.Table.{free_table};
ghost use Rattle.ptk_roster.specs.Rosters.{seen};
ghost use Rattle.ptk_mutex.specs.Sound.{IsSound};

use ptk_roster::Roster;
use std::alloc::{AllocError, Global};

/// A roster as `Roster::build` makes it, of which every call here finds what it asks. An error where memory ran out.
#[tactic(auto, using(crate::proofs::Sound::sound_blank))]
pub fn build(
    alloc: Global,
    threads: &[u32],
    mutexes: &[u32],
    conditions: &[u32],
) -> Result<Roster, AllocError>
    requires partitions { length threads.now ≤ 8 }
    requires same { (length mutexes.now ≡ length threads.now) × (length conditions.now ≡ length threads.now) }
    requires threads { All (λ count. count ≤ 32) threads.now }
    requires mutexes { All (λ count. count ≤ 64) mutexes.now }
    requires conditions { All (λ count. count ≤ 32) conditions.now }
    ensures table { IfOk result (λ roster. roster.table ≡ seen (free_table threads.now)) }
    ensures lines { IfOk result (λ roster. roster.lines ≡ replicate (length threads.now) []) }
    ensures mutexes { IfOk result (λ roster. roster.mutexes ≡ map (filled None) mutexes.now) }
    ensures conditions { IfOk result (λ roster. roster.conditions ≡ map (filled None) conditions.now) }
    ensures sound { IfOk result (λ roster. IsSound roster) }
{
    let roster = Roster::build(alloc, threads, mutexes, conditions)?;
    Ok(roster)
}
